// The free type variables of types, by their levels.
ghost use Rattle.std.specs.Prelude.{◌≡◌, ◌++◌, OnOk};
ghost use Rattle.k_terms.specs.Read.{ktree, ktys};
ghost use Rattle.c_rules.specs.Know as W;

use crate::vars::level_of;
use idx_core::{OutOfMemory, sum};
use k_terms::KType;

/// The levels of the free type variables of a type under `under` names, themselves under `depth`. An error is want of
/// memory.
#[cycle(levels)]
pub fn type_levels(t: &KType, depth: u64, under: u64, out: &mut Vec<u64>) -> Result<(), OutOfMemory>
    ensures { OnOk result (out.new.items ≡ out.old.items ++ W.type_levels depth under (ktree t.now)) }
{
    match t {
        KType::Int => Ok(()),
        KType::Var(i) => {
            if under <= *i {
                out.push(level_of(depth, *i - under))?;
                Ok(())
            } else {
                Ok(())
            }
        }
        KType::Tuple(ts) => {
            types_levels(ts, depth, under, out)?;
            Ok(())
        }
        KType::Code { owes, args } => {
            let under = sum(*owes, under)?;
            types_levels(args, depth, under, out)?;
            Ok(())
        }
        KType::Exists(t) => {
            let under = sum(under, 1)?;
            type_levels(t, depth, under, out)?;
            Ok(())
        }
        KType::Ref(t) => {
            type_levels(t, depth, under, out)?;
            Ok(())
        }
    }
}

/// Those of several. An error is want of memory.
#[cycle(levels)]
pub fn types_levels(
    ts: &[KType],
    depth: u64,
    under: u64,
    out: &mut Vec<u64>,
) -> Result<(), OutOfMemory>
    ensures { OnOk result (out.new.items ≡ out.old.items ++ W.types_levels depth under (ktys ts.now)) }
{
    for t in ts {
        type_levels(t, depth, under, out)?;
    }
    Ok(())
}
