// The types of variables where they were noted.
ghost use Rattle.std.specs.Prelude.{◌≡◌, Some, IfOk};
ghost use Rattle.a_terms.specs.Tree.{ATuple, ashift};
ghost use Rattle.a_terms.specs.Typing.{aunset, field_of as the_field_of, body_of as the_body_of};
ghost use Rattle.a_terms.specs.Read.{atree, atrees, afields};
ghost use Rattle.a_scope.specs.Scope.{noted_type};

use a_terms::AType;
use a_terms::parts::flagged_tuple;
use a_terms::walks::shift_type;
use idx_core::OutOfMemory;
use std::alloc::Global;
use std::rc::Rc;

/// The type of a variable where it was noted. A type that stands in the program is lent, and not copied (own choice).
#[derive(Drop)]
pub enum Noted<'a> {
    /// That of integers.
    Int,
    /// A type that stands in the program.
    Lent(&'a AType),
    /// A tuple of types that stand in the program, with no field initialised.
    Room(&'a [AType]),
    /// A type that was made. Variables that stand for one tuple share it.
    Made(Rc<AType>),
}

// The same type again.
pub(crate) fn again<'a>(ty: &Noted<'a>) -> Result<Noted<'a>, OutOfMemory>
    ensures { IfOk result (λ r. noted_type r ≡ noted_type ty.now) }
{
    match ty {
        Noted::Int => Ok(Noted::Int),
        Noted::Lent(t) => Ok(Noted::Lent(t)),
        Noted::Room(types) => Ok(Noted::Room(types)),
        Noted::Made(t) => {
            let shared = t.clone()?;
            Ok(Noted::Made(shared))
        }
    }
}

// A tuple of these types, no field initialised, under `by` more names.
fn shown_room(alloc: Global, types: &[AType], by: u64) -> Result<AType, OutOfMemory>
    ensures { IfOk result (λ t. atree t ≡ ashift by 0 (ATuple (aunset (atrees types.now)))) }
{
    let whole = flagged_tuple(alloc, types, false)?;
    let made = shift_type(alloc, &whole, by, 0)?;
    Ok(made)
}

// The type itself, under `by` more names.
pub(crate) fn shown_type(alloc: Global, ty: &Noted, by: u64) -> Result<AType, OutOfMemory>
    ensures { IfOk result (λ t. atree t ≡ ashift by 0 (noted_type ty.now)) }
{
    match ty {
        Noted::Int => Ok(AType::Int),
        Noted::Lent(t) => {
            let made = shift_type(alloc, t, by, 0)?;
            Ok(made)
        }
        Noted::Room(types) => {
            let made = shown_room(alloc, types, by)?;
            Ok(made)
        }
        Noted::Made(t) => {
            let made = shift_type(alloc, t, by, 0)?;
            Ok(made)
        }
    }
}

// Field i of a tuple of these fields, from 1 on.
fn field_among<'a>(fields: &'a [(AType, bool)], i: u64) -> Noted<'a>
    ensures { noted_type result ≡ the_field_of i (Some (ATuple (afields fields.now))) }
{
    if i == 0 {
        return Noted::Int;
    }
    if i - 1 < fields.len() as u64 {
        return Noted::Lent(&fields[(i - 1) as usize].0);
    }
    Noted::Int
}

// Field i of a type that stands in the program.
pub(crate) fn lent_field<'a>(t: &'a AType, i: u64) -> Noted<'a>
    ensures { noted_type result ≡ the_field_of i (Some (atree t.now)) }
{
    match t {
        AType::Tuple(fields) => field_among(fields, i),
        AType::Int | AType::Var(_) | AType::Exists(_) | AType::Code { .. } => Noted::Int,
    }
}

// Field i of a tuple of these types.
pub(crate) fn room_field<'a>(types: &'a [AType], i: u64) -> Noted<'a>
    ensures { noted_type result ≡ the_field_of i (Some (ATuple (aunset (atrees types.now)))) }
{
    if i == 0 {
        return Noted::Int;
    }
    if i - 1 < types.len() as u64 {
        return Noted::Lent(&types[(i - 1) as usize]);
    }
    Noted::Int
}

// What a package of a type that stands in the program hides.
pub(crate) fn lent_body<'a>(t: &'a AType) -> Noted<'a>
    ensures { noted_type result ≡ the_body_of (Some (atree t.now)) }
{
    match t {
        AType::Exists(body) => Noted::Lent(body),
        AType::Int | AType::Var(_) | AType::Tuple(_) | AType::Code { .. } => Noted::Int,
    }
}
