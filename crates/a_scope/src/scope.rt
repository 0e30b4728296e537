// The variables in scope.
ghost use Rattle.std.specs.Prelude.{◌≡◌, ℕ, IfOk};
ghost use Rattle.a_terms.specs.Read.{atree};
ghost use Rattle.a_scope.specs.Scope.{shown, noted, noted_type, filled_to};

use crate::noted::{Noted, again, shown_type};
use a_terms::parts::filled_of;
use a_terms::{AProgram, AType};
use idx_core::OutOfMemory;
use std::alloc::Global;
use std::rc::Rc;

/// The type of a variable, as it was when `names` type names were in scope, with the first `filled` fields of the tuple
/// initialised besides. It is shifted, and its fields are marked, where it is read. So the variables that stand for one
/// tuple, one after each field that is initialised, share its type (own choice). `register` is where it lives.
#[derive(Drop)]
pub struct Entry<'a> {
    pub ty: Noted<'a>,
    pub filled: u64,
    pub names: u64,
    pub register: u64,
}

// What is around a value: the program that its labels and data name, the variables in scope, and how many type names
// there are.
#[derive(Clone, Copy, Drop)]
pub(crate) struct Around<'b, 'a> {
    pub(crate) alloc: Global,
    pub(crate) program: &'b AProgram,
    pub(crate) vars: &'b [Entry<'a>],
    pub(crate) names: u64,
}

// A variable of this type, where `names` type names are in scope.
pub(crate) fn noted_as<'a>(ty: Noted<'a>, names: u64) -> Entry<'a>
    ensures ty { noted result ≡ noted_type ty.entry }
    ensures names { result.names ≡ names }
{
    Entry {
        ty,
        filled: 0,
        names,
        register: 0,
    }
}

/// A variable of this type, which stands in the program, where `names` type names are in scope.
pub fn noted_lent<'a>(ty: &'a AType, names: u64) -> Entry<'a>
    ensures ty { noted result ≡ atree ty.now }
    ensures names { result.names ≡ names }
{
    noted_as(Noted::Lent(ty), names)
}

/// A variable of this type, where `names` type names are in scope. An error is want of memory.
pub fn noted_now<'a>(alloc: Global, ty: AType, names: u64) -> Result<Entry<'a>, OutOfMemory>
    ensures ty { IfOk result (λ e. noted e ≡ atree ty) }
    ensures names { IfOk result (λ e. e.names ≡ names) }
{
    let ty = Rc::new(alloc, ty)?;
    Ok(noted_as(Noted::Made(ty), names))
}

/// The variable, living in this register.
pub fn placed<'a>(entry: Entry<'a>, register: u64) -> Entry<'a>
    ensures register { result.register ≡ register }
    ensures names { result.names ≡ entry.entry.names }
    ensures shown { (k : ℕ) → shown k result ≡ shown k entry.entry }
{
    let mut made = entry;
    made.register = register;
    made
}

/// One more variable of the same type, with this many fields initialised besides. An error is want of memory.
pub fn sharing<'a>(entry: &Entry<'a>, filled: u64) -> Result<Entry<'a>, OutOfMemory>
    ensures ty { IfOk result (λ e. noted e ≡ filled_to filled (noted_type entry.now.ty)) }
    ensures names { IfOk result (λ e. e.names ≡ entry.now.names) }
{
    let ty = again(&entry.ty)?;
    Ok(Entry {
        ty,
        filled,
        names: entry.names,
        register: 0,
    })
}

// The type with its first `count` fields initialised besides.
fn filled_up(t: AType, count: u64) -> AType
    ensures { atree result ≡ filled_to count (atree t) }
{
    let mut made = t;
    for i in 0..count {
        made = filled_of(Some(made), i + 1);
    }
    made
}

/// The type of a variable where `names` type names are in scope. An error is want of memory.
pub fn show(alloc: Global, entry: &Entry, names: u64) -> Result<AType, OutOfMemory>
    ensures { IfOk result (λ t. atree t ≡ shown names entry.now) }
{
    let by = names.saturating_sub(entry.names);
    let made = shown_type(alloc, &entry.ty, by)?;
    Ok(filled_up(made, entry.filled))
}
