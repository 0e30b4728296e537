// Code that types go to.
ghost use Rattle.std.specs.Prelude.{◌≡◌, IfOk};
ghost use Rattle.t_types.specs.Read.{tree, file, types as type_trees};
ghost use Rattle.t_terms.specs.Registers.{inst_file};
ghost use Rattle.t_spill_rules.specs.Spill.{applied_type};
ghost use Rattle.t_spill.specs.Applying.{CanApply, MayApply};

use idx_core::{OutOfMemory, Scoped};
use std::alloc::Global;
use t_types::{RegFile, TType, put_regs};

// The registers' types of code that owes `owes` types, where these types go to it in order.
fn instantiate(
    alloc: Global,
    owes: u64,
    regs: Vec<(u64, TType)>,
    types: &[TType],
) -> Result<Vec<(u64, TType)>, OutOfMemory>
    requires { CanApply owes (file regs.items) (type_trees types.now) }
    ensures { IfOk result (λ r. file r.items ≡ inst_file (type_trees types.now) owes (file regs.items)) }
{
    let mut made = regs;
    let mut left = owes;
    for t in types {
        left -= 1;
        let what = t.shift(alloc, left, 0)?;
        made = put_regs(alloc, &made, left, left, &what)?;
    }
    Ok(made)
}

/// The type of what has this type where types go to it; `Int` where it is no code.
pub fn applied(alloc: Global, ty: TType, types: &[TType]) -> Result<TType, OutOfMemory>
    requires { MayApply (tree ty) (type_trees types.now) }
    ensures { IfOk result (λ r. tree r ≡ applied_type (tree ty) (type_trees types.now)) }
{
    match ty {
        TType::Code { owes, regs } => {
            let count = types.len() as u64;
            let regs = instantiate(alloc, owes, regs.regs, types)?;
            Ok(TType::Code {
                owes: owes - count,
                regs: RegFile { regs },
            })
        }
        TType::Int | TType::Var(_) | TType::Exists(_) | TType::Tuple(_) => Ok(TType::Int),
    }
}
