// Numbers of types that are given as trees.
ghost use Rattle.std.specs.Prelude.{◌≡◌, length, IfOk, OnOk};
ghost use Rattle.t_types.specs.Read.{tree, types, file, fields};
ghost use Rattle.t_types.specs.Tree.{CodeTy, TupleTy};
ghost use Rattle.t_intern.specs.Applied.{row, unfilled as unfilled_fields};
ghost use Rattle.t_intern.specs.Grown.{Grown, IsNumber, AreNumbers, AreRegs, AreFields};
ghost use Rattle.t_intern.specs.Nodes.{regs_at, fields_at, RegsBelow, FieldsBelow};
ghost use Rattle.t_intern.specs.Numbered.{Numbered, NumberedFile, NumberedFields};

use crate::shape::Shape;
use crate::types::Types;
use idx_core::OutOfMemory;
use std::alloc::Global;
use t_types::TType;

// Numbers as fields that are not filled.
fn unfilled(alloc: Global, ns: &[u64]) -> Result<Vec<(u64, bool)>, OutOfMemory>
    ensures { IfOk result (λ v. v.items ≡ unfilled_fields ns.now) }
{
    let mut made = Vec::new(alloc);
    for i in 0..ns.len() {
        made.push((ns[i], false))?;
    }
    Ok(made)
}

impl Types {
    /// The numbers of types. An error is want of memory.
    pub fn number_all(&mut self, ts: &[TType]) -> Result<Vec<u64>, OutOfMemory>
        ensures grown { Grown self.old self.new }
        ensures numbers { IfOk result (λ v. AreNumbers self.new (types ts.now) v.items) }
    {
        let mut made = Vec::new(self.alloc());
        for t in ts {
            let n = self.number(t)?;
            made.push(n)?;
        }
        Ok(made)
    }

    /// The number of a tuple of types whose fields are not filled. An error is want of memory.
    pub fn number_row(&mut self, ts: &[TType]) -> Result<u64, OutOfMemory>
        ensures grown { Grown self.old self.new }
        ensures number { IfOk result (IsNumber self.new (TupleTy (row (types ts.now)))) }
    {
        let numbers = self.number_all(ts)?;
        let fields = unfilled(self.alloc(), &numbers)?;
        self.interned(Shape::Tuple(fields))
    }

    /// The number of code that owes `owes` types and has these registers. An error is want of memory.
    pub fn number_code(&mut self, owes: u64, regs: &[(u64, TType)]) -> Result<u64, OutOfMemory>
        ensures grown { Grown self.old self.new }
        ensures number { IfOk result (IsNumber self.new (CodeTy owes (file regs.now))) }
    {
        let regs = self.number_regs(regs)?;
        self.interned(Shape::Code { owes, regs })
    }

    /// The number of a type. A new type comes after all others and after its own parts, which are numbered from the
    /// left. An error is want of memory.
    #[cycle(numbers)]
    pub fn number(&mut self, t: &TType) -> Result<u64, OutOfMemory>
        ensures grown { Grown self.old self.new }
        ensures number { IfOk result (IsNumber self.new (tree t.now)) }
        ensures order { OnOk result (Numbered (tree t.now) self.old self.new) }
    {
        match t {
            TType::Int => self.interned(Shape::Int),
            TType::Var(i) => self.interned(Shape::Var(*i)),
            TType::Code { owes, regs } => {
                let regs = self.number_regs(&regs.regs)?;
                self.interned(Shape::Code { owes: *owes, regs })
            }
            TType::Exists(t) => {
                let t = self.number(t)?;
                self.interned(Shape::Exists(t))
            }
            TType::Tuple(fs) => {
                let fs = self.number_fields(fs)?;
                self.interned(Shape::Tuple(fs))
            }
        }
    }

    #[cycle(numbers)]
    fn number_regs(&mut self, regs: &[(u64, TType)]) -> Result<Vec<(u64, u64)>, OutOfMemory>
        ensures grown { Grown self.old self.new }
        ensures numbers { IfOk result (λ v. AreRegs self.new
            (file regs.now) v.items) }
        ensures order { OnOk result (NumberedFile (file regs.now) self.old self.new) }
    {
        let mut made = Vec::new(self.alloc());
        for reg in regs {
            let n = self.number(&reg.1)?;
            made.push((reg.0, n))?;
        }
        Ok(made)
    }

    #[cycle(numbers)]
    fn number_fields(&mut self, fs: &[(TType, bool)]) -> Result<Vec<(u64, bool)>, OutOfMemory>
        ensures grown { Grown self.old self.new }
        ensures numbers { IfOk result (λ v. AreFields self.new
            (fields fs.now) v.items) }
        ensures order { OnOk result (NumberedFields (fields fs.now) self.old self.new) }
    {
        let mut made = Vec::new(self.alloc());
        for field in fs {
            let n = self.number(&field.0)?;
            made.push((n, field.1))?;
        }
        Ok(made)
    }
}
