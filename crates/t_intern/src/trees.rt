// Types as trees again.
ghost use Rattle.std.specs.Prelude.{◌≡◌, ◌<◌, ◌≤◌, length, IfOk};
ghost use Rattle.t_types.specs.Read.{tree, file, fields};
ghost use Rattle.t_intern.specs.Nodes.{at, regs_at, fields_at, RegsBelow, FieldsBelow};

use crate::shape::Shape;
use crate::types::Types;
use idx_core::OutOfMemory;
use t_types::{RegFile, TType};

impl Types {
    /// The type of a number, as a tree. An error is want of memory.
    #[cycle(trees)]
    pub fn tree(&self, n: u64) -> Result<TType, OutOfMemory>
        requires { n < length self.now }
        ensures { IfOk result (λ t. tree t ≡ at self.now n) }
    {
        match self.shape(n) {
            Shape::Int => Ok(TType::Int),
            Shape::Var(i) => Ok(TType::Var(*i)),
            Shape::Code { owes, regs } => {
                let regs = self.tree_regs(n, regs)?;
                Ok(TType::Code {
                    owes: *owes,
                    regs: RegFile { regs },
                })
            }
            Shape::Exists(t) => {
                let t = self.tree(*t)?;
                Ok(TType::Exists(Box::new(self.alloc(), t)?))
            }
            Shape::Tuple(parts) => {
                let parts = self.tree_fields(n, parts)?;
                Ok(TType::Tuple(parts))
            }
        }
    }

    #[cycle(trees)]
    fn tree_regs(&self, n: u64, regs: &[(u64, u64)]) -> Result<Vec<(u64, TType)>, OutOfMemory>
        requires there { n ≤ length self.now }
        requires parts { RegsBelow n regs.now }
        ensures { IfOk result (λ v. file v.items ≡ regs_at self.now regs.now) }
    {
        let mut made = Vec::new(self.alloc());
        for reg in regs {
            let t = self.tree(reg.1)?;
            made.push((reg.0, t))?;
        }
        Ok(made)
    }

    #[cycle(trees)]
    fn tree_fields(&self, n: u64, parts: &[(u64, bool)]) -> Result<Vec<(TType, bool)>, OutOfMemory>
        requires there { n ≤ length self.now }
        requires parts { FieldsBelow n parts.now }
        ensures { IfOk result (λ v. fields v.items ≡ fields_at self.now parts.now) }
    {
        let mut made = Vec::new(self.alloc());
        for part in parts {
            let t = self.tree(part.0)?;
            made.push((t, part.1))?;
        }
        Ok(made)
    }
}
