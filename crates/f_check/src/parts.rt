// The parts of a type, taken out of it.
ghost use Rattle.std.specs.Prelude.{◌≡◌, ◌↔◌, IfOk, IsTrue, map};
ghost use Rattle.f_terms.specs.Ty.{TInt, tys, PutFits, ShiftFits};
ghost use Rattle.f_terms.specs.Noted.{outside};
ghost use Rattle.f_terms.specs.Read.{tree};
ghost use Rattle.f_check.specs.Parts.{IsArrow, IsAll, IsTuple, IsField, IsSome, IsRef, IsShape, IsOuter};

use f_terms::{FType, eq};
use idx_core::{OutOfMemory, Scoped};
use std::alloc::Global;

pub(crate) fn is_int(t: &FType) -> bool
    ensures { IsTrue result ↔ tree t.now ≡ TInt }
{
    match t {
        FType::Int => true,
        _ => false,
    }
}

// The parts of a function's type, or the type itself.
pub(crate) fn arrow_parts(t: FType) -> Result<(FType, FType), FType>
    ensures { IsArrow (tree t) result }
{
    match t {
        FType::Arrow(arg, res) => Ok((Box::into_inner(arg), Box::into_inner(res))),
        FType::Int | FType::Var(_) | FType::All(_) | FType::Tuple(_) => Err(t),
        FType::Exists(_) | FType::Ref(_) => Err(t),
    }
}

// The body of a polymorphic type, or the type itself.
pub(crate) fn all_body(t: FType) -> Result<FType, FType>
    ensures { IsAll (tree t) result }
{
    match t {
        FType::All(body) => Ok(Box::into_inner(body)),
        FType::Int | FType::Var(_) | FType::Arrow(_, _) | FType::Tuple(_) => Err(t),
        FType::Exists(_) | FType::Ref(_) => Err(t),
    }
}

// The types of a tuple's fields, or the type itself.
#[tactic(auto, using(f_terms::proofs::Trees::tree_Tuple))]
pub(crate) fn tuple_parts(t: FType) -> Result<Vec<FType>, FType>
    ensures { IsTuple (tree t) result }
{
    match t {
        FType::Tuple(parts) => Ok(parts),
        FType::Int | FType::Var(_) | FType::Arrow(_, _) | FType::All(_) => Err(t),
        FType::Exists(_) | FType::Ref(_) => Err(t),
    }
}

// The body of an existential type, or the type itself.
pub(crate) fn some_body(t: FType) -> Result<FType, FType>
    ensures { IsSome (tree t) result }
{
    match t {
        FType::Exists(body) => Ok(Box::into_inner(body)),
        FType::Int | FType::Var(_) | FType::Arrow(_, _) | FType::All(_) => Err(t),
        FType::Tuple(_) | FType::Ref(_) => Err(t),
    }
}

// The type of what a cell holds, or the type itself.
pub(crate) fn cell_part(t: FType) -> Result<FType, FType>
    ensures { IsRef (tree t) result }
{
    match t {
        FType::Ref(cell) => Ok(Box::into_inner(cell)),
        FType::Int | FType::Var(_) | FType::Arrow(_, _) | FType::All(_) => Err(t),
        FType::Tuple(_) | FType::Exists(_) => Err(t),
    }
}

// The body of a type that hides one, lent.
pub(crate) fn shape_body(t: &FType) -> Option<&FType>
    ensures { IsShape (tree t.now) result }
{
    match t {
        FType::Exists(body) => Some(body),
        FType::Int | FType::Var(_) | FType::Arrow(_, _) | FType::All(_) => None,
        FType::Tuple(_) | FType::Ref(_) => None,
    }
}

// The type from outside of the innermost type name, where that is not in it.
pub(crate) fn outer(alloc: Global, t: &FType) -> Result<Option<FType>, OutOfMemory>
    requires puts { PutFits 0 TInt 0 (tree t.now) }
    requires shifts { ShiftFits 1 0 (outside (tree t.now)) }
    ensures { IfOk result (λ r. IsOuter (tree t.now) r) }
{
    let lowered = t.put(alloc, 0, &FType::Int)?;
    let back = lowered.shift(alloc, 1, 0)?;
    if eq(t, &back) {
        Ok(Some(lowered))
    } else {
        Ok(None)
    }
}

// A field, counted from 1, or all of them.
#[tactic(auto, using(crate::proofs::Fields::field_facts))]
pub(crate) fn take_field(parts: Vec<FType>, i: u64) -> Result<FType, Vec<FType>>
    ensures { IsField (tys (map tree parts.items)) i result }
{
    let mut parts = parts;
    if i == 0 {
        return Err(parts);
    }
    if i > parts.len() as u64 {
        return Err(parts);
    }
    Ok(parts.swap_remove((i - 1) as usize))
}
