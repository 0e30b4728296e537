// Types are written.
ghost use Rattle.std.specs.Prelude.{◌≡◌, ◌++◌, IfOk};
ghost use Rattle.t_types.specs.Read.{tree, file, fields as field_trees, types as type_trees};
ghost use Rattle.a_terms.specs.Read.{atree, atrees, afields};
ghost use Rattle.t_gen_rules.specs.Gen.{ty, tys, ty_args, ty_fields};

use a_terms::AType;
use idx_core::OutOfMemory;
use std::alloc::Global;
use t_types::{RegFile, TType};

/// The assembly type that a type of the allocated calculus becomes, part by part. An error is want of memory.
#[cycle(writing)]
pub fn written(alloc: Global, t: &AType) -> Result<TType, OutOfMemory>
    ensures { IfOk result (λ r. tree r ≡ ty (atree t.now)) }
{
    match t {
        AType::Int => Ok(TType::Int),
        AType::Var(i) => Ok(TType::Var(*i)),
        AType::Tuple(ts) => {
            let parts = written_fields(alloc, ts)?;
            Ok(TType::Tuple(parts))
        }
        AType::Code { owes, args } => {
            let regs = written_args(alloc, args)?;
            Ok(TType::Code {
                owes: *owes,
                regs: RegFile { regs },
            })
        }
        AType::Exists(body) => {
            let inside = written(alloc, body)?;
            Ok(TType::Exists(Box::new(alloc, inside)?))
        }
    }
}

/// The assembly types of a code's arguments, in the registers from 1 on. An error is want of memory.
#[cycle(writing)]
pub fn written_args(alloc: Global, ts: &[AType]) -> Result<Vec<(u64, TType)>, OutOfMemory>
    ensures { IfOk result (λ r. file r.items ≡ ty_args (atrees ts.now) 1) }
{
    let mut made = Vec::with_capacity(alloc, ts.len())?;
    let mut r = 1;
    for t in ts {
        let one = written(alloc, t)?;
        made.push((r, one))?;
        r += 1;
    }
    Ok(made)
}

#[cycle(writing)]
fn written_fields(alloc: Global, ts: &[(AType, bool)]) -> Result<Vec<(TType, bool)>, OutOfMemory>
    ensures { IfOk result (λ r. field_trees r.items ≡ ty_fields (afields ts.now)) }
{
    let mut made = Vec::with_capacity(alloc, ts.len())?;
    for t in ts {
        let one = written(alloc, &t.0)?;
        made.push((one, t.1))?;
    }
    Ok(made)
}

/// The assembly types that types become, behind others. An error is want of memory.
pub fn written_onto(
    alloc: Global,
    before: Vec<TType>,
    ts: &[AType],
) -> Result<Vec<TType>, OutOfMemory>
    ensures { IfOk result (λ r. type_trees r.items ≡ type_trees before.items ++ tys (atrees ts.now)) }
{
    let mut made = before;
    for t in ts {
        let one = written(alloc, t)?;
        made.push(one)?;
    }
    Ok(made)
}

/// The assembly types that types become. An error is want of memory.
pub fn written_all(alloc: Global, ts: &[AType]) -> Result<Vec<TType>, OutOfMemory>
    ensures { IfOk result (λ r. type_trees r.items ≡ tys (atrees ts.now)) }
{
    let made = written_onto(alloc, Vec::new(alloc), ts)?;
    Ok(made)
}
