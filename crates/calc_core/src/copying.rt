// Copies of types.
ghost use Rattle.std.specs.Prelude.{◌≡◌, IfOk};
ghost use Rattle.calc_core.specs.Read.{tree, all_trees};

use crate::types::CoreType;
use idx_core::OutOfMemory;
use std::alloc::Global;

/// The same type again. An error is want of memory.
#[cycle(copies)]
pub fn copy(alloc: Global, t: &CoreType) -> Result<CoreType, OutOfMemory>
    ensures { IfOk result (λ r. tree r ≡ tree t.now) }
{
    match t {
        CoreType::Int => Ok(CoreType::Int),
        CoreType::Var(i) => Ok(CoreType::Var(*i)),
        CoreType::Tuple(ts) => {
            let ts = copy_all(alloc, ts)?;
            Ok(CoreType::Tuple(ts))
        }
        CoreType::Code { owes, args } => {
            let args = copy_all(alloc, args)?;
            Ok(CoreType::Code { owes: *owes, args })
        }
        CoreType::Exists(t) => {
            let t = copy(alloc, t)?;
            Ok(CoreType::Exists(Box::new(alloc, t)?))
        }
        CoreType::Ref(t) => {
            let t = copy(alloc, t)?;
            Ok(CoreType::Ref(Box::new(alloc, t)?))
        }
    }
}

/// The same types again. An error is want of memory.
#[cycle(copies)]
pub fn copy_all(alloc: Global, ts: &[CoreType]) -> Result<Vec<CoreType>, OutOfMemory>
    ensures { IfOk result (λ r. all_trees r.items ≡ all_trees ts.now) }
{
    let mut made = Vec::with_capacity(alloc, ts.len())?;
    for t in ts {
        made.push(copy(alloc, t)?)?;
    }
    Ok(made)
}
