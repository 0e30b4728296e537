// Types of the closed calculus.
ghost use Rattle.std.specs.Prelude.{◌≡◌, IfOk};
ghost use Rattle.k_terms.specs.Read.{ktree, ktys};
ghost use Rattle.c_terms.specs.C.{TCExists, TCTuple, TCCode, TCVar, MoreCTys, NoCTys};
ghost use Rattle.c_terms.specs.Read.{ctree, ctys};
ghost use Rattle.c_rules.specs.Close as L;
ghost use Rattle.calc_core.specs.Read.{joined};
ghost use Rattle.c_emit.specs.Names.{renaming};

use crate::names::Renaming;
use crate::vars::name;
use c_terms::CType;
use idx_core::OutOfMemory;
use k_terms::KType;
use std::alloc::Global;

// The type of a closure, by its code's.
fn closure_type(alloc: Global, owes: u64, args: Vec<CType>) -> Result<CType, OutOfMemory>
    ensures { IfOk result
        (λ r. ctree r ≡ TCExists (TCTuple (MoreCTys (TCCode owes (ctys args.items)) (MoreCTys (TCVar 0) NoCTys)))) }
{
    let mut parts = Vec::with_capacity(alloc, 2)?;
    parts.push(CType::Code { owes, args })?;
    parts.push(CType::Var(0))?;
    let pair = Box::new(alloc, CType::Tuple(parts))?;
    Ok(CType::Exists(pair))
}

/// The type that a type becomes, its type variables where `names` says. An error is want of memory.
#[cycle(close)]
pub fn close_type(alloc: Global, t: &KType, names: &Renaming) -> Result<CType, OutOfMemory>
    ensures { IfOk result (λ r. ctree r ≡ L.ctype (renaming names.now) (ktree t.now)) }
{
    match t {
        KType::Int => Ok(CType::Int),
        KType::Var(i) => {
            let at = name(names, *i)?;
            Ok(CType::Var(at))
        }
        KType::Tuple(ts) => {
            let room = Vec::with_capacity(alloc, ts.len())?;
            let made = close_types(alloc, ts, names, room)?;
            Ok(CType::Tuple(made))
        }
        KType::Code { owes, args } => {
            let inner = Renaming::Under {
                owes: *owes,
                around: &*names,
            };
            let mut own = Vec::with_capacity(alloc, args.len().saturating_add(1))?;
            own.push(CType::Var(*owes))?;
            let made = close_types(alloc, args, &inner, own)?;
            let t = closure_type(alloc, *owes, made)?;
            Ok(t)
        }
        KType::Exists(t) => {
            let inner = Renaming::Within { around: &*names };
            let t = close_type(alloc, t, &inner)?;
            Ok(CType::Exists(Box::new(alloc, t)?))
        }
        KType::Ref(t) => {
            let t = close_type(alloc, t, names)?;
            Ok(CType::Ref(Box::new(alloc, t)?))
        }
    }
}

/// Those that several become, after the types that are made. An error is want of memory.
#[cycle(close)]
pub fn close_types(
    alloc: Global,
    ts: &[KType],
    names: &Renaming,
    made: Vec<CType>,
) -> Result<Vec<CType>, OutOfMemory>
    ensures { IfOk result (λ r. ctys r.items ≡ joined made.items (L.ctypes (renaming names.now) (ktys ts.now))) }
{
    let mut made = made;
    for t in ts {
        made.push(close_type(alloc, t, names)?)?;
    }
    Ok(made)
}
