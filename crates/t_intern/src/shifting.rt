// Shifts of types by number.
ghost use Rattle.std.specs.Prelude.{◌≡◌, ℕ, ◌<◌, length, IfOk};
ghost use Rattle.idx_core.specs.Over.{IsWord, ShiftFitsAt, shifted};
ghost use Rattle.t_types.specs.Tree.{VarTy, each_file, each_fields, shift, shift_file, shift_fields, ShiftFits};
ghost use Rattle.t_intern.specs.Found.{found};
ghost use Rattle.t_intern.specs.Grown.{Grown, IsNumber, AreRegs, AreFields};
ghost use Rattle.t_intern.specs.Memo.{Remembers};
ghost use Rattle.t_intern.specs.Nodes.{at, regs_at, fields_at, RegsBelow, FieldsBelow};

use crate::memo::Memo;
use crate::shape::Shape;
use crate::types::Types;
use idx_core::OutOfMemory;

impl Types {
    /// The number of a type that is shifted by `by` at `cut`. It is remembered, so that the type is walked once. An
    /// error is want of memory.
    pub fn shift(&mut self, n: u64, by: u64, cut: u64) -> Result<u64, OutOfMemory>
        requires there { n < length self.old }
        requires fits { ShiftFits by cut (at self.old n) }
        ensures grown { Grown self.old self.new }
        ensures number { IfOk result (IsNumber self.new (shift by cut (at self.old n))) }
    {
        if by == 0 {
            return Ok(n);
        }
        if self.bound(n) <= cut as u128 {
            return Ok(n);
        }
        if let Some(made) = self.recalls_shift(n, by, cut) {
            return Ok(made);
        }
        let mut memo = self.memo();
        let made = self.shift_in(&mut memo, n, by, cut)?;
        self.note_shift(n, by, cut, made);
        Ok(made)
    }

    // The same, where the memo has what was found before.
    #[cycle(shifts)]
    fn shift_in(&mut self, memo: &mut Memo, n: u64, by: u64, cut: u64) -> Result<u64, OutOfMemory>
        requires there { n < length self.old }
        requires fits { ShiftFits by cut (at self.old n) }
        requires memo { Remembers (shifted VarTy by) (found memo.old) self.old }
        ensures grown { Grown self.old self.new }
        ensures memo { Remembers (shifted VarTy by) (found memo.new) self.new }
        ensures number { IfOk result (IsNumber self.new (shift by cut (at self.old n))) }
    {
        if self.bound(n) <= cut as u128 {
            return Ok(n);
        }
        if let Some(made) = memo.recall(n, cut) {
            return Ok(made);
        }
        let made = self.shift_parts(memo, n, by, cut)?;
        memo.note(n, cut, made)?;
        Ok(made)
    }

    // The same by its parts.
    #[cycle(shifts)]
    fn shift_parts(
        &mut self,
        memo: &mut Memo,
        n: u64,
        by: u64,
        cut: u64,
    ) -> Result<u64, OutOfMemory>
        requires there { n < length self.old }
        requires fits { ShiftFits by cut (at self.old n) }
        requires memo { Remembers (shifted VarTy by) (found memo.old) self.old }
        ensures grown { Grown self.old self.new }
        ensures memo { Remembers (shifted VarTy by) (found memo.new) self.new }
        ensures number { IfOk result (IsNumber self.new (shift by cut (at self.old n))) }
    {
        match self.copied(n)? {
            Shape::Int => self.interned(Shape::Int),
            Shape::Var(i) => self.interned(Shape::Var(shifted_index(i, by, cut))),
            Shape::Code { owes, regs } => {
                let regs = self.shift_regs(memo, &regs, by, cut + owes)?;
                self.interned(Shape::Code { owes, regs })
            }
            Shape::Exists(t) => {
                let t = self.shift_in(memo, t, by, cut + 1)?;
                self.interned(Shape::Exists(t))
            }
            Shape::Tuple(fields) => {
                let fields = self.shift_fields(memo, &fields, by, cut)?;
                self.interned(Shape::Tuple(fields))
            }
        }
    }

    // Registers and fields, each by its type.
    #[cycle(shifts)]
    fn shift_regs(
        &mut self,
        memo: &mut Memo,
        regs: &[(u64, u64)],
        by: u64,
        cut: u64,
    ) -> Result<Vec<(u64, u64)>, OutOfMemory>
        requires parts { RegsBelow (length self.old) regs.now }
        requires fits { each_file (ShiftFitsAt by) IsWord cut (regs_at self.old regs.now) }
        requires memo { Remembers (shifted VarTy by) (found memo.old) self.old }
        ensures grown { Grown self.old self.new }
        ensures memo { Remembers (shifted VarTy by) (found memo.new) self.new }
        ensures numbers { IfOk result (λ v. AreRegs self.new
            (shift_file by cut (regs_at self.old regs.now)) v.items) }
    {
        let mut made = Vec::new(self.alloc());
        for reg in regs {
            let t = self.shift_in(memo, reg.1, by, cut)?;
            made.push((reg.0, t))?;
        }
        Ok(made)
    }

    #[cycle(shifts)]
    fn shift_fields(
        &mut self,
        memo: &mut Memo,
        fields: &[(u64, bool)],
        by: u64,
        cut: u64,
    ) -> Result<Vec<(u64, bool)>, OutOfMemory>
        requires parts { FieldsBelow (length self.old) fields.now }
        requires fits { each_fields (ShiftFitsAt by) IsWord cut (fields_at self.old fields.now) }
        requires memo { Remembers (shifted VarTy by) (found memo.old) self.old }
        ensures grown { Grown self.old self.new }
        ensures memo { Remembers (shifted VarTy by) (found memo.new) self.new }
        ensures numbers { IfOk result (λ v. AreFields self.new
            (shift_fields by cut (fields_at self.old fields.now)) v.items) }
    {
        let mut made = Vec::new(self.alloc());
        for field in fields {
            let t = self.shift_in(memo, field.0, by, cut)?;
            made.push((t, field.1))?;
        }
        Ok(made)
    }
}

// A variable under a shift.
fn shifted_index(i: u64, by: u64, cut: u64) -> u64
    requires { ShiftFitsAt by cut i }
    ensures { VarTy result ≡ shifted VarTy by cut i }
{
    if i < cut { i } else { i + by }
}
