// Declarations.
ghost use Rattle.std.specs.Prelude.{◌≡◌, ◌≤◌, ◌++◌, [], ◌∷◌, true, IfOk, OnOk};
ghost use Rattle.a_terms.specs.Tree.{AProg};
ghost use Rattle.a_terms.specs.Typing.{type_of, or_int, filled_of as the_filled_of, declared, more_vars};
ghost use Rattle.a_terms.specs.NodeTrees.{a_value, a_values, is_decl, a_decl};
ghost use Rattle.a_terms.specs.Arity.{AArity};
ghost use Rattle.a_terms.specs.Program.{program_in};
ghost use Rattle.a_scope.specs.Scope.{scope, Under, EntryOf, MaybeEntryOf, decl_tree, decl_ty, type_here};
ghost use Rattle.a_scope.specs.declared.scope.Entry.{Entry as TheEntry};

use crate::field::{body_entry, field_entry};
use crate::noted::Noted;
use crate::scope::{Around, Entry, noted_as, noted_lent, noted_now, placed, sharing};
use crate::sharing::{entry_of, filled_then};
use crate::value::{first, packed, type_of_value};
use a_terms::parts::{filled_of, known};
use a_terms::{AForm, AProgram, AValue};
use idx_core::{OutOfMemory, sum};
use std::alloc::Global;

// A variable for a value that is none: the shape of a package is lent.
fn other_entry<'a>(around: &Around, v: &'a AValue) -> Result<Entry<'a>, OutOfMemory>
    ensures { IfOk result (EntryOf around.now.names (or_int (type_here around.now (a_value v.now)))) }
{
    match packed(v) {
        Some(shape) => Ok(noted_lent(shape, around.names)),
        None => {
            let ty = type_of_value(around.alloc, around.program, around.vars, around.names, v)?;
            let made = noted_now(around.alloc, known(ty), around.names)?;
            Ok(made)
        }
    }
}

// A variable for a value.
fn value_entry<'a>(around: &Around<'_, 'a>, v: &'a AValue) -> Result<Entry<'a>, OutOfMemory>
    requires { Under around.now.names around.now.vars.now }
    ensures { IfOk result (EntryOf around.now.names (or_int (type_here around.now (a_value v.now)))) }
{
    match entry_of(around.vars, v) {
        Some(entry) => {
            let made = sharing(entry, entry.filled)?;
            Ok(made)
        }
        None => {
            let made = other_entry(around, v)?;
            Ok(made)
        }
    }
}

// A variable for a tuple whose field i is initialised. Its type is made.
fn filled_made<'a>(around: &Around, v: &AValue, i: u64) -> Result<Entry<'a>, OutOfMemory>
    ensures { IfOk result (EntryOf around.now.names (the_filled_of i (type_here around.now (a_value v.now)))) }
{
    let ty = type_of_value(around.alloc, around.program, around.vars, around.names, v)?;
    let made = noted_now(around.alloc, filled_of(ty, i), around.names)?;
    Ok(made)
}

// A variable for a tuple that is one, where the fields up to i are initialised.
fn shared_filled<'a>(
    vars: &[Entry<'a>],
    names: u64,
    v: &AValue,
    i: u64,
) -> Result<Option<Entry<'a>>, OutOfMemory>
    requires { Under names vars.now }
    ensures { IfOk result (λ o. (p : AProg)
        → MaybeEntryOf names (the_filled_of i (type_of p (scope names vars.now) (a_value v.now))) o) }
{
    match entry_of(vars, v) {
        Some(entry) => {
            match filled_then(entry.filled, i) {
                Some(count) => {
                    let made = sharing(entry, count)?;
                    Ok(Some(made))
                }
                None => Ok(None),
            }
        }
        None => Ok(None),
    }
}

// A variable for a tuple whose field i is initialised, which shares the type of the tuple where that is a variable.
fn filled_entry<'a>(around: &Around<'_, 'a>, v: &AValue, i: u64) -> Result<Entry<'a>, OutOfMemory>
    requires { Under around.now.names around.now.vars.now }
    ensures { IfOk result (EntryOf around.now.names (the_filled_of i (type_here around.now (a_value v.now)))) }
{
    match shared_filled(around.vars, around.names, v, i)? {
        Some(entry) => Ok(entry),
        None => {
            let made = filled_made(around, v, i)?;
            Ok(made)
        }
    }
}

// The type names in scope after a declaration.
fn names_after(form: &AForm, values: &[AValue], names: u64) -> Result<u64, OutOfMemory>
    ensures { IfOk result (λ r. r ≡ more_vars (a_decl form.now (a_values values.now)) names) }
{
    match form {
        AForm::Unpack => {
            let more = sum(names, 1)?;
            Ok(more)
        }
        _ => Ok(names),
    }
}

// The variable that is declared.
fn declared_entry<'a>(
    around: &Around<'_, 'a>,
    form: &'a AForm,
    values: &'a [AValue],
) -> Result<Entry<'a>, OutOfMemory>
    requires form { is_decl form.now ≡ true }
    requires arity { AArity form.now (a_values values.now) }
    requires under { Under around.now.names around.now.vars.now }
    ensures { IfOk result (EntryOf (more_vars (a_decl form.now (a_values values.now)) around.now.names)
        (decl_ty (program_in around.now.program.now) (scope around.now.names around.now.vars.now)
        (a_decl form.now (a_values values.now)))) }
{
    match form {
        AForm::Value => {
            let made = value_entry(around, first(values))?;
            Ok(made)
        }
        AForm::Proj(i) => {
            let made = field_entry(around, first(values), *i)?;
            Ok(made)
        }
        AForm::Arith(_) => Ok(noted_as(Noted::Int, around.names)),
        AForm::Unpack => {
            let made = body_entry(around, first(values))?;
            Ok(made)
        }
        AForm::Malloc(types) => Ok(noted_as(Noted::Room(types), around.names)),
        AForm::Init(i) => {
            let made = filled_entry(around, first(values), *i)?;
            Ok(made)
        }
        _ => unreachable!(),
    }
}

/// A declaration where it stands: how many type names are in scope before it, its form and its values, and the register
/// of its variable.
#[derive(Clone, Copy, Drop)]
pub struct Declaration<'a> {
    pub names: u64,
    pub form: &'a AForm,
    pub values: &'a [AValue],
    pub register: u64,
}

/// One more variable: the type names in scope then. An error is want of memory.
pub fn declare<'a>(
    alloc: Global,
    program: &AProgram,
    vars: &mut Vec<Entry<'a>>,
    decl: &Declaration<'a>,
) -> Result<u64, OutOfMemory>
    requires form { is_decl decl.now.form.now ≡ true }
    requires arity { AArity decl.now.form.now (a_values decl.now.values.now) }
    requires under { Under decl.now.names vars.old.items }
    ensures names { IfOk result (λ r. r ≡ more_vars (decl_tree decl.now) decl.now.names) }
    ensures scope { OnOk result (scope (more_vars (decl_tree decl.now) decl.now.names) vars.new.items
        ≡ declared (program_in program.now) (scope decl.now.names vars.old.items) (decl_tree decl.now)) }
    ensures more { OnOk result ((e : TheEntry) × (e.names ≤ more_vars (decl_tree decl.now) decl.now.names)
        × (e.register ≡ decl.now.register) × (vars.new.items ≡ vars.old.items ++ e ∷ [])) }
{
    let after = names_after(decl.form, decl.values, decl.names)?;
    let around = Around {
        alloc,
        program,
        vars: &*vars,
        names: decl.names,
    };
    let made = declared_entry(&around, decl.form, decl.values)?;
    let entry = placed(made, decl.register);
    vars.push(entry)?;
    Ok(after)
}
