// The types of names: that of a value, a field of one, and what a package hides. Of a type that stands in the hoisted
// program the part is lent; of another type only what is asked for is copied.
ghost use Rattle.std.specs.Prelude.{◌≡◌, ◌≤◌, true, Some, IfOk, slice_get};
ghost use Rattle.c_terms.specs.C.{TCTuple};
ghost use Rattle.c_terms.specs.Read.{ctree, ctys};
ghost use Rattle.a_terms.specs.Tree.{ashift, ATuple, MoreAFields, NoAFields};
ghost use Rattle.a_terms.specs.Read.{atree};
ghost use Rattle.a_terms.specs.Typing.{or_int, field_of as the_field_of, body_of as the_body_of};
ghost use Rattle.a_laws.specs.Allocate.{atype};
ghost use Rattle.a_pass.specs.Scope.{kept, scope, typed, type_of, NotesType, Under};

use crate::scope::{name_at, own};
use crate::state::{Kept, Name, Noted, TypeOf};
use crate::types::a_type_under;
use a_terms::AType;
use a_terms::parts::{body_of, field_of};
use a_terms::walks::shift_type;
use c_terms::CType;
use idx_core::OutOfMemory;
use std::alloc::Global;

// A type that was made, where there are so many type names.
pub(crate) fn made_now<'a>(ty: AType, under: u64) -> Noted<'a>
    ensures { NotesType under (atree ty) result }
{
    let ty = Kept::Made(ty);
    Noted { ty, under }
}

// The type of a name that is named once more.
fn same_name<'a>(alloc: Global, name: &Name<'a>, binders: u64) -> Result<Noted<'a>, OutOfMemory>
    requires { name.now.under ≤ binders }
    ensures { IfOk result (NotesType binders (typed binders name.now)) }
{
    match &name.ty {
        Kept::Lent(t) => Ok(Noted {
            ty: Kept::Lent(t),
            under: name.under,
        }),
        Kept::Made(t) => {
            let by = binders.saturating_sub(name.under);
            let made = shift_type(alloc, t, by, 0)?;
            Ok(made_now(made, binders))
        }
    }
}

// The type of name i.
fn name_noted<'a>(
    alloc: Global,
    names: &[Name<'a>],
    binders: u64,
    i: u64,
) -> Result<Noted<'a>, OutOfMemory>
    requires { Under binders names.now }
    ensures { IfOk result (NotesType binders (or_int (slice_get (scope binders names.now) i))) }
{
    match name_at(names, i) {
        Some(name) => {
            let made = same_name(alloc, name, binders)?;
            Ok(made)
        }
        None => Ok(made_now(AType::Int, binders)),
    }
}

fn made_value<'a>(
    alloc: Global,
    names: &[Name],
    binders: u64,
    ty: &TypeOf,
) -> Result<Noted<'a>, OutOfMemory>
    ensures { IfOk result (NotesType binders (type_of (scope binders names.now) ty.now)) }
{
    let made = own(alloc, names, binders, ty)?;
    Ok(made_now(made, binders))
}

// The type of a value.
pub(crate) fn value_noted<'a>(
    alloc: Global,
    names: &[Name<'a>],
    binders: u64,
    ty: &TypeOf<'a>,
) -> Result<Noted<'a>, OutOfMemory>
    requires { Under binders names.now }
    ensures { IfOk result (NotesType binders (type_of (scope binders names.now) ty.now)) }
{
    match ty {
        TypeOf::Name(i) => {
            let made = name_noted(alloc, names, binders, *i)?;
            Ok(made)
        }
        TypeOf::Lent(t) => Ok(Noted {
            ty: Kept::Lent(t),
            under: binders,
        }),
        _ => {
            let made = made_value(alloc, names, binders, ty)?;
            Ok(made)
        }
    }
}

// Field i of a tuple of these types, from 1 on.
fn field_among<'a>(ts: &'a [CType], i: u64) -> Kept<'a>
    ensures { kept result ≡ the_field_of i (Some (atype (TCTuple (ctys ts.now)))) }
{
    if i == 0 {
        return Kept::Made(AType::Int);
    }
    if i - 1 < ts.len() as u64 {
        return Kept::Lent(&ts[(i - 1) as usize]);
    }
    Kept::Made(AType::Int)
}

// The one field of a cell.
fn cell_field<'a>(t: &'a CType, i: u64) -> Kept<'a>
    ensures { kept result ≡ the_field_of i (Some (ATuple (MoreAFields (atype (ctree t.now)) true NoAFields))) }
{
    if i == 1 {
        Kept::Lent(t)
    } else {
        Kept::Made(AType::Int)
    }
}

// Field i of a type that is lent.
fn lent_field<'a>(t: &'a CType, i: u64) -> Kept<'a>
    ensures { kept result ≡ the_field_of i (Some (atype (ctree t.now))) }
{
    match t {
        CType::Tuple(ts) => field_among(ts, i),
        CType::Ref(inner) => cell_field(inner, i),
        CType::Int | CType::Var(_) | CType::Exists(_) | CType::Code { .. } => Kept::Made(
            AType::Int,
        ),
    }
}

// Field i of a name.
fn field_of_name<'a>(
    alloc: Global,
    name: &Name<'a>,
    binders: u64,
    i: u64,
) -> Result<Noted<'a>, OutOfMemory>
    requires { name.now.under ≤ binders }
    ensures { IfOk result (NotesType binders (the_field_of i (Some (typed binders name.now)))) }
{
    match &name.ty {
        Kept::Lent(t) => Ok(Noted {
            ty: lent_field(t, i),
            under: name.under,
        }),
        Kept::Made(t) => {
            let by = binders.saturating_sub(name.under);
            let made = field_of(alloc, t, i, by)?;
            Ok(made_now(made, binders))
        }
    }
}

// Field i of name n.
fn name_field<'a>(
    alloc: Global,
    names: &[Name<'a>],
    binders: u64,
    n: u64,
    i: u64,
) -> Result<Noted<'a>, OutOfMemory>
    requires { Under binders names.now }
    ensures { IfOk result (NotesType binders (the_field_of i (Some (or_int (slice_get (scope binders names.now) n))))) }
{
    match name_at(names, n) {
        Some(name) => {
            let made = field_of_name(alloc, name, binders, i)?;
            Ok(made)
        }
        None => Ok(made_now(AType::Int, binders)),
    }
}

fn field_of_other<'a>(
    alloc: Global,
    names: &[Name],
    binders: u64,
    ty: &TypeOf,
    i: u64,
) -> Result<Noted<'a>, OutOfMemory>
    ensures { IfOk result (NotesType binders (the_field_of i (Some (type_of (scope binders names.now) ty.now)))) }
{
    let whole = own(alloc, names, binders, ty)?;
    let made = field_of(alloc, &whole, i, 0)?;
    Ok(made_now(made, binders))
}

// Field i of a value, from 1 on.
pub(crate) fn field_noted<'a>(
    alloc: Global,
    names: &[Name<'a>],
    binders: u64,
    ty: &TypeOf,
    i: u64,
) -> Result<Noted<'a>, OutOfMemory>
    requires { Under binders names.now }
    ensures { IfOk result (NotesType binders (the_field_of i (Some (type_of (scope binders names.now) ty.now)))) }
{
    match ty {
        TypeOf::Name(n) => {
            let made = name_field(alloc, names, binders, *n, i)?;
            Ok(made)
        }
        _ => {
            let made = field_of_other(alloc, names, binders, ty, i)?;
            Ok(made)
        }
    }
}

// What a package of a type that is lent hides.
fn lent_body<'a>(t: &'a CType) -> Kept<'a>
    ensures { kept result ≡ the_body_of (Some (atype (ctree t.now))) }
{
    match t {
        CType::Exists(body) => Kept::Lent(body),
        CType::Int | CType::Var(_) | CType::Tuple(_) | CType::Ref(_) | CType::Code { .. } => {
            Kept::Made(AType::Int)
        }
    }
}

// What a package of this type hides, under `by` more names around it.
fn body_under(alloc: Global, t: &CType, by: u64) -> Result<AType, OutOfMemory>
    ensures { IfOk result (λ r. atree r ≡ ashift by 1 (the_body_of (Some (atype (ctree t.now))))) }
{
    match t {
        CType::Exists(body) => {
            let made = a_type_under(alloc, body, by, 1)?;
            Ok(made)
        }
        CType::Int | CType::Var(_) | CType::Tuple(_) | CType::Ref(_) | CType::Code { .. } => {
            Ok(AType::Int)
        }
    }
}

// The type of what such a package hides, where there are `after` names then: lent where it is not shifted.
fn lent_or_made<'a>(
    alloc: Global,
    t: &'a CType,
    by: u64,
    after: u64,
) -> Result<Noted<'a>, OutOfMemory>
    ensures { IfOk result (NotesType after (ashift by 1 (the_body_of (Some (atype (ctree t.now)))))) }
{
    if by == 0 {
        return Ok(Noted {
            ty: lent_body(t),
            under: after,
        });
    }
    let made = body_under(alloc, t, by)?;
    Ok(made_now(made, after))
}

// What a name hides.
fn body_of_name<'a>(
    alloc: Global,
    name: &Name<'a>,
    binders: u64,
    after: u64,
) -> Result<Noted<'a>, OutOfMemory>
    ensures { IfOk result (NotesType after (the_body_of (Some (typed binders name.now)))) }
{
    let by = binders.saturating_sub(name.under);
    match &name.ty {
        Kept::Lent(t) => {
            let made = lent_or_made(alloc, t, by, after)?;
            Ok(made)
        }
        Kept::Made(t) => {
            let made = body_of(alloc, t, by)?;
            Ok(made_now(made, after))
        }
    }
}

// What name n hides.
fn name_body<'a>(
    alloc: Global,
    names: &[Name<'a>],
    binders: u64,
    n: u64,
    after: u64,
) -> Result<Noted<'a>, OutOfMemory>
    ensures { IfOk result (NotesType after (the_body_of (Some (or_int (slice_get (scope binders names.now) n))))) }
{
    match name_at(names, n) {
        Some(name) => {
            let made = body_of_name(alloc, name, binders, after)?;
            Ok(made)
        }
        None => Ok(made_now(AType::Int, after)),
    }
}

fn body_of_other<'a>(
    alloc: Global,
    names: &[Name],
    binders: u64,
    ty: &TypeOf,
    after: u64,
) -> Result<Noted<'a>, OutOfMemory>
    ensures { IfOk result (NotesType after (the_body_of (Some (type_of (scope binders names.now) ty.now)))) }
{
    let whole = own(alloc, names, binders, ty)?;
    let made = body_of(alloc, &whole, 0)?;
    Ok(made_now(made, after))
}

// What a package hides, where there are `after` type names then.
pub(crate) fn body_noted<'a>(
    alloc: Global,
    names: &[Name<'a>],
    binders: u64,
    ty: &TypeOf,
    after: u64,
) -> Result<Noted<'a>, OutOfMemory>
    ensures { IfOk result (NotesType after (the_body_of (Some (type_of (scope binders names.now) ty.now)))) }
{
    match ty {
        TypeOf::Name(n) => {
            let made = name_body(alloc, names, binders, *n, after)?;
            Ok(made)
        }
        _ => {
            let made = body_of_other(alloc, names, binders, ty, after)?;
            Ok(made)
        }
    }
}
