// The variables for fields, and for what a package hides. Of a type that stands in the program the part is lent; of
// another type only what is asked for is copied, so many projections of one tuple cost no more than their fields.
ghost use Rattle.std.specs.Prelude.{◌≡◌, ◌≤◌, Some, suc, IfOk};
ghost use Rattle.a_terms.specs.Tree.{ashift};
ghost use Rattle.a_terms.specs.Typing.{field_of as the_field_of, body_of as the_body_of};
ghost use Rattle.a_terms.specs.Read.{atree, maybe};
ghost use Rattle.a_terms.specs.NodeTrees.{a_value};
ghost use Rattle.a_scope.specs.Scope.{shown, EntryOf, Under, type_here};

use crate::noted::{Noted, lent_body, lent_field, room_field};
use crate::scope::{Around, Entry, noted_as, noted_now};
use crate::sharing::entry_of;
use crate::value::type_of_value;
use a_terms::parts::{body_of, field_of};
use a_terms::{AProgram, AType, AValue};
use idx_core::{OutOfMemory, sum};
use std::alloc::Global;

// A variable for field i of a type that was made, under `by` more names.
fn made_field<'a>(
    alloc: Global,
    t: &AType,
    i: u64,
    by: u64,
    names: u64,
) -> Result<Entry<'a>, OutOfMemory>
    ensures { IfOk result (EntryOf names (ashift by 0 (the_field_of i (Some (atree t.now))))) }
{
    let made = field_of(alloc, t, i, by)?;
    let noted = noted_now(alloc, made, names)?;
    Ok(noted)
}

// A variable for field i of a variable.
fn field_of_entry<'a>(
    alloc: Global,
    entry: &Entry<'a>,
    names: u64,
    i: u64,
) -> Result<Entry<'a>, OutOfMemory>
    requires { entry.now.names ≤ names }
    ensures { IfOk result (EntryOf names (the_field_of i (Some (shown names entry.now)))) }
{
    match &entry.ty {
        Noted::Int => Ok(noted_as(Noted::Int, names)),
        Noted::Lent(t) => Ok(noted_as(lent_field(t, i), entry.names)),
        Noted::Room(types) => Ok(noted_as(room_field(types, i), entry.names)),
        Noted::Made(t) => {
            let by = names.saturating_sub(entry.names);
            let made = made_field(alloc, t, i, by, names)?;
            Ok(made)
        }
    }
}

fn field_of_type(alloc: Global, t: AType, i: u64) -> Result<AType, OutOfMemory>
    ensures { IfOk result (λ r. atree r ≡ the_field_of i (Some (atree t))) }
{
    let made = field_of(alloc, &t, i, 0)?;
    Ok(made)
}

fn field_of_known(alloc: Global, ty: Option<AType>, i: u64) -> Result<AType, OutOfMemory>
    ensures { IfOk result (λ r. atree r ≡ the_field_of i (maybe ty)) }
{
    match ty {
        None => Ok(AType::Int),
        Some(t) => {
            let made = field_of_type(alloc, t, i)?;
            Ok(made)
        }
    }
}

// A variable for field i of a value that is none.
fn field_of_other<'a>(around: &Around, v: &AValue, i: u64) -> Result<Entry<'a>, OutOfMemory>
    ensures { IfOk result (EntryOf around.now.names (the_field_of i (type_here around.now (a_value v.now)))) }
{
    let ty = type_of_value(around.alloc, around.program, around.vars, around.names, v)?;
    let made = field_of_known(around.alloc, ty, i)?;
    let noted = noted_now(around.alloc, made, around.names)?;
    Ok(noted)
}

// A variable for field i of a value, from 1 on.
pub(crate) fn field_entry<'a>(
    around: &Around<'_, 'a>,
    v: &AValue,
    i: u64,
) -> Result<Entry<'a>, OutOfMemory>
    requires { Under around.now.names around.now.vars.now }
    ensures { IfOk result (EntryOf around.now.names (the_field_of i (type_here around.now (a_value v.now)))) }
{
    match entry_of(around.vars, v) {
        Some(entry) => {
            let made = field_of_entry(around.alloc, entry, around.names, i)?;
            Ok(made)
        }
        None => {
            let made = field_of_other(around, v, i)?;
            Ok(made)
        }
    }
}

// A variable for what a package of this type hides, under `by` more names around it, of which there are `after` then.
fn made_body<'a>(alloc: Global, t: &AType, by: u64, after: u64) -> Result<Entry<'a>, OutOfMemory>
    ensures { IfOk result (EntryOf after (ashift by 1 (the_body_of (Some (atree t.now))))) }
{
    let made = body_of(alloc, t, by)?;
    let noted = noted_now(alloc, made, after)?;
    Ok(noted)
}

// The same of a type that stands in the program, which is lent where it is not shifted.
fn lent_or_made<'a>(
    alloc: Global,
    t: &'a AType,
    by: u64,
    after: u64,
) -> Result<Entry<'a>, OutOfMemory>
    ensures { IfOk result (EntryOf after (ashift by 1 (the_body_of (Some (atree t.now))))) }
{
    if by == 0 {
        return Ok(noted_as(lent_body(t), after));
    }
    let made = made_body(alloc, t, by, after)?;
    Ok(made)
}

// A variable for what a variable hides. A tuple some of whose fields are initialised hides nothing.
fn body_of_entry<'a>(
    alloc: Global,
    entry: &Entry<'a>,
    names: u64,
    after: u64,
) -> Result<Entry<'a>, OutOfMemory>
    ensures { IfOk result (EntryOf after (the_body_of (Some (shown names entry.now)))) }
{
    if entry.filled > 0 {
        return Ok(noted_as(Noted::Int, after));
    }
    let by = names.saturating_sub(entry.names);
    match &entry.ty {
        Noted::Int => Ok(noted_as(Noted::Int, after)),
        Noted::Lent(t) => {
            let made = lent_or_made(alloc, t, by, after)?;
            Ok(made)
        }
        Noted::Room(_) => Ok(noted_as(Noted::Int, after)),
        Noted::Made(t) => {
            let made = made_body(alloc, t, by, after)?;
            Ok(made)
        }
    }
}

fn opened(t: AType) -> AType
    ensures { atree result ≡ the_body_of (Some (atree t)) }
{
    match t {
        AType::Exists(body) => Box::into_inner(body),
        AType::Int | AType::Var(_) | AType::Tuple(_) | AType::Code { .. } => AType::Int,
    }
}

fn body_of_known(ty: Option<AType>) -> AType
    ensures { atree result ≡ the_body_of (maybe ty) }
{
    match ty {
        Some(t) => opened(t),
        None => AType::Int,
    }
}

// A variable for what a value that is none hides.
fn body_of_other<'a>(around: &Around, v: &AValue, after: u64) -> Result<Entry<'a>, OutOfMemory>
    ensures { IfOk result (EntryOf after (the_body_of (type_here around.now (a_value v.now)))) }
{
    let ty = type_of_value(around.alloc, around.program, around.vars, around.names, v)?;
    let made = noted_now(around.alloc, body_of_known(ty), after)?;
    Ok(made)
}

// A variable for what a package hides, where one type name more is in scope.
pub(crate) fn body_entry<'a>(around: &Around<'_, 'a>, v: &AValue) -> Result<Entry<'a>, OutOfMemory>
    ensures { IfOk result (EntryOf (suc around.now.names) (the_body_of (type_here around.now (a_value v.now)))) }
{
    let after = sum(around.names, 1)?;
    match entry_of(around.vars, v) {
        Some(entry) => {
            let made = body_of_entry(around.alloc, entry, around.names, after)?;
            Ok(made)
        }
        None => {
            let made = body_of_other(around, v, after)?;
            Ok(made)
        }
    }
}
