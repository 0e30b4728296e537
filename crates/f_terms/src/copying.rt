// Copies of types.
ghost use Rattle.std.specs.Prelude.{◌≡◌, IfOk};
ghost use Rattle.f_terms.specs.Read.{tree};

use crate::types::FType;
use idx_core::OutOfMemory;
use std::alloc::Global;

/// The same type again. An error is want of memory.
pub fn copy(alloc: Global, t: &FType) -> Result<FType, OutOfMemory>
    ensures { IfOk result (λ r. tree r ≡ tree t.now) }
{
    match t {
        FType::Int => Ok(FType::Int),
        FType::Var(i) => Ok(FType::Var(*i)),
        FType::Arrow(a, b) => {
            let a = copy(alloc, a)?;
            let b = copy(alloc, b)?;
            Ok(FType::Arrow(Box::new(alloc, a)?, Box::new(alloc, b)?))
        }
        FType::All(t) => {
            let t = copy(alloc, t)?;
            Ok(FType::All(Box::new(alloc, t)?))
        }
        FType::Tuple(ts) => {
            let mut parts = Vec::new(alloc);
            for part in ts {
                parts.push(copy(alloc, part)?)?;
            }
            Ok(FType::Tuple(parts))
        }
        FType::Exists(t) => {
            let t = copy(alloc, t)?;
            Ok(FType::Exists(Box::new(alloc, t)?))
        }
        FType::Ref(t) => {
            let t = copy(alloc, t)?;
            Ok(FType::Ref(Box::new(alloc, t)?))
        }
    }
}
