// The types of forms, from those of their parts.
ghost use Rattle.std.specs.Prelude.{◌≡◌, map, IfOk};
ghost use Rattle.f_terms.specs.Ty.{TInt, TArrow, TAll, TTuple, TRef, NoTys, tys, PutFits};
ghost use Rattle.f_terms.specs.Typing.{field_ty};
ghost use Rattle.f_terms.specs.Noted.{or_int, result_of, body_of, fields_of, opened_of, held_of, outside};
ghost use Rattle.f_terms.specs.Read.{tree};
ghost use Rattle.types_page.specs.Walk.{with_field};

use f_terms::{FType, copy};
use idx_core::{OutOfMemory, Scoped};
use std::alloc::Global;

// The type outside of the innermost type name.
pub(crate) fn outside(alloc: Global, ty: &FType) -> Result<FType, OutOfMemory>
    requires { PutFits 0 TInt 0 (tree ty.now) }
    ensures { IfOk result (λ r. tree r ≡ outside (tree ty.now)) }
{
    ty.put(alloc, 0, &FType::Int)
}

// The type of a function.
pub(crate) fn arrow(alloc: Global, arg: &FType, res: &FType) -> Result<FType, OutOfMemory>
    ensures { IfOk result (λ r. tree r ≡ TArrow (tree arg.now) (tree res.now)) }
{
    let arg = copy(alloc, arg)?;
    let res = copy(alloc, res)?;
    Ok(FType::Arrow(Box::new(alloc, arg)?, Box::new(alloc, res)?))
}

pub(crate) fn all(alloc: Global, ty: FType) -> Result<FType, OutOfMemory>
    ensures { IfOk result (λ r. tree r ≡ TAll (tree ty)) }
{
    Ok(FType::All(Box::new(alloc, ty)?))
}

pub(crate) fn cell(alloc: Global, ty: FType) -> Result<FType, OutOfMemory>
    ensures { IfOk result (λ r. tree r ≡ TRef (tree ty)) }
{
    Ok(FType::Ref(Box::new(alloc, ty)?))
}

pub(crate) fn result_of(ty: FType) -> FType
    ensures { tree result ≡ result_of (tree ty) }
{
    match ty {
        FType::Arrow(_, res) => Box::into_inner(res),
        FType::Int | FType::Var(_) | FType::All(_) | FType::Tuple(_) => FType::Int,
        FType::Exists(_) | FType::Ref(_) => FType::Int,
    }
}

pub(crate) fn body_of(ty: FType) -> FType
    ensures { tree result ≡ body_of (tree ty) }
{
    match ty {
        FType::All(body) => Box::into_inner(body),
        FType::Int | FType::Var(_) | FType::Arrow(_, _) | FType::Tuple(_) => FType::Int,
        FType::Exists(_) | FType::Ref(_) => FType::Int,
    }
}

pub(crate) fn opened_of(ty: FType) -> FType
    ensures { tree result ≡ opened_of (tree ty) }
{
    match ty {
        FType::Exists(body) => Box::into_inner(body),
        FType::Int | FType::Var(_) | FType::Arrow(_, _) | FType::All(_) => FType::Int,
        FType::Tuple(_) | FType::Ref(_) => FType::Int,
    }
}

pub(crate) fn held_of(ty: FType) -> FType
    ensures { tree result ≡ held_of (tree ty) }
{
    match ty {
        FType::Ref(held) => Box::into_inner(held),
        FType::Int | FType::Var(_) | FType::Arrow(_, _) | FType::All(_) => FType::Int,
        FType::Tuple(_) | FType::Exists(_) => FType::Int,
    }
}

// The types of a tuple's fields.
#[tactic(auto, using(f_terms::proofs::Trees::tree_Tuple))]
pub(crate) fn fields_of(alloc: Global, ty: FType) -> Vec<FType>
    ensures { tys (map tree result.items) ≡ fields_of (tree ty) }
{
    match ty {
        FType::Tuple(parts) => parts,
        FType::Int | FType::Var(_) | FType::Arrow(_, _) | FType::All(_) => Vec::new(alloc),
        FType::Exists(_) | FType::Ref(_) => Vec::new(alloc),
    }
}

// The type of no fields.
#[tactic(auto, using(f_terms::proofs::Trees::tree_Tuple))]
pub(crate) fn unit(alloc: Global) -> FType
    ensures { tree result ≡ TTuple NoTys }
{
    FType::Tuple(Vec::new(alloc))
}

// The type of a tuple with one field more.
pub(crate) fn more_fields(alloc: Global, tuple: FType, ty: FType) -> Result<FType, OutOfMemory>
    ensures { IfOk result (λ r. tree r ≡ TTuple (with_field (fields_of (tree tuple)) (tree ty))) }
{
    let mut fields = fields_of(alloc, tuple);
    fields.push(ty)?;
    Ok(FType::Tuple(fields))
}

// Field i of these, counted from 1, or `int` where there is none.
#[tactic(auto, using(f_check::proofs::Fields::field_facts))]
fn field_in(parts: Vec<FType>, i: u64) -> FType
    ensures { tree result ≡ or_int (field_ty (tys (map tree parts.items)) i) }
{
    let mut parts = parts;
    if i == 0 {
        return FType::Int;
    }
    if i > parts.len() as u64 {
        return FType::Int;
    }
    parts.swap_remove((i - 1) as usize)
}

// Field i of a tuple, counted from 1, or `int` where there is none.
pub(crate) fn field_of(alloc: Global, ty: FType, i: u64) -> FType
    ensures { tree result ≡ or_int (field_ty (fields_of (tree ty)) i) }
{
    field_in(fields_of(alloc, ty), i)
}
