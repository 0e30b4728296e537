// Types as allocation leaves them.
ghost use Rattle.std.specs.Prelude.{◌≡◌, IfOk};
ghost use Rattle.idx_core.specs.Over.{shifted};
ghost use Rattle.c_terms.specs.Read.{ctree, ctys};
ghost use Rattle.a_terms.specs.Tree.{AVar, over, over_types, over_fields};
ghost use Rattle.a_terms.specs.Read.{atree, atrees, afields};
ghost use Rattle.a_laws.specs.Allocate.{atype, atypes};
ghost use Rattle.a_terms.specs.Typing.{aset};

use a_terms::AType;
use c_terms::CType;
use idx_core::{OutOfMemory, sum};
use std::alloc::Global;

fn moved(by: u64, d: u64, i: u64) -> Result<AType, OutOfMemory>
    ensures { IfOk result (λ r. atree r ≡ shifted AVar by d i) }
{
    if i < d {
        Ok(AType::Var(i))
    } else {
        let j = sum(i, by)?;
        Ok(AType::Var(j))
    }
}

// The type as allocation leaves it, under `by` more names, where the variables below `d` are bound: a reference becomes
// a tuple of one field.
#[cycle(allocating)]
pub(crate) fn a_type_under(alloc: Global, t: &CType, by: u64, d: u64) -> Result<AType, OutOfMemory>
    ensures { IfOk result (λ r. atree r ≡ over (shifted AVar by) d (atype (ctree t.now))) }
{
    match t {
        CType::Int => Ok(AType::Int),
        CType::Var(i) => {
            let made = moved(by, d, *i)?;
            Ok(made)
        }
        CType::Tuple(ts) => {
            let parts = a_fields(alloc, ts, by, d)?;
            Ok(AType::Tuple(parts))
        }
        CType::Code { owes, args } => {
            let below = sum(d, *owes)?;
            let parts = a_types_under(alloc, args, by, below)?;
            Ok(AType::Code {
                owes: *owes,
                args: parts,
            })
        }
        CType::Exists(inner) => {
            let below = sum(d, 1)?;
            let inside = a_type_under(alloc, inner, by, below)?;
            Ok(AType::Exists(Box::new(alloc, inside)?))
        }
        CType::Ref(inner) => {
            let inside = a_type_under(alloc, inner, by, d)?;
            let mut field = Vec::with_capacity(alloc, 1)?;
            field.push((inside, true))?;
            Ok(AType::Tuple(field))
        }
    }
}

#[cycle(allocating)]
fn a_types_under(alloc: Global, ts: &[CType], by: u64, d: u64) -> Result<Vec<AType>, OutOfMemory>
    ensures { IfOk result (λ r. atrees r.items ≡ over_types (shifted AVar by) d (atypes (ctys ts.now))) }
{
    let mut made = Vec::with_capacity(alloc, ts.len())?;
    for t in ts {
        let one = a_type_under(alloc, t, by, d)?;
        made.push(one)?;
    }
    Ok(made)
}

// The fields of a tuple, all initialised.
#[cycle(allocating)]
fn a_fields(alloc: Global, ts: &[CType], by: u64, d: u64) -> Result<Vec<(AType, bool)>, OutOfMemory>
    ensures { IfOk result (λ r. afields r.items ≡ over_fields (shifted AVar by) d (aset (atypes (ctys ts.now)))) }
{
    let mut made = Vec::with_capacity(alloc, ts.len())?;
    for t in ts {
        let one = a_type_under(alloc, t, by, d)?;
        made.push((one, true))?;
    }
    Ok(made)
}

// The type as allocation leaves it.
pub(crate) fn a_type(alloc: Global, t: &CType) -> Result<AType, OutOfMemory>
    ensures { IfOk result (λ r. atree r ≡ atype (ctree t.now)) }
{
    let made = a_type_under(alloc, t, 0, 0)?;
    Ok(made)
}

// Types as allocation leaves them.
pub(crate) fn a_types(alloc: Global, ts: &[CType]) -> Result<Vec<AType>, OutOfMemory>
    ensures { IfOk result (λ r. atrees r.items ≡ atypes (ctys ts.now)) }
{
    let made = a_types_under(alloc, ts, 0, 0)?;
    Ok(made)
}
