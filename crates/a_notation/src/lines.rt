// What a node says on its line.
ghost use Rattle.std.specs.Prelude.{◌≡◌, ◌≤◌, ◌++◌, [], length, OnOk};
ghost use Rattle.a_terms.specs.NodeTrees.{a_values, no_value};
ghost use Rattle.a_terms.specs.Read.{atrees};
ghost use Rattle.calc_core.specs.Row.{others, top};
ghost use Rattle.a_terms.specs.declared.nodes.AForm.TheVariants.{Arith, Halt, If0, Init, Proj, Unpack, Value};
ghost use Rattle.a_notation.specs.Notation.{call_text, let_text, malloc_text};
ghost use Rattle.a_notation.specs.Scopes.{form_text, least};

use crate::scope::Scope;
use crate::types::write_types;
use crate::values::{write_first, write_others, write_second};
use a_terms::{AForm, AType, AValue};
use idx_core::{Op, OutOfMemory};
use page_core::{write_natural, write_op, write_type_name, write_value_name};

// The name that a declaration gives, and what stands behind it.
fn write_let(text: &mut Vec<u8>, names: u64, note: &[u8]) -> Result<(), OutOfMemory>
    ensures { OnOk result (text.new.items ≡ text.old.items ++ let_text names note.now) }
{
    text.extend_from_slice(b"let ")?;
    write_value_name(text, names)?;
    text.extend_from_slice(note)?;
    text.extend_from_slice(b" = ")?;
    Ok(())
}

// A declaration of a value as it stands.
fn write_named(
    text: &mut Vec<u8>,
    values: &[AValue],
    scope: &Scope,
    note: &[u8],
) -> Result<(), OutOfMemory>
    requires { 1 ≤ length values.now }
    ensures { OnOk result (text.new.items ≡
        text.old.items ++ form_text scope.now.types scope.now.names note.now Value (a_values values.now)) }
{
    write_let(text, scope.names, note)?;
    write_first(text, values, scope.types, scope.names)?;
    Ok(())
}

fn write_arith(
    text: &mut Vec<u8>,
    op: Op,
    values: &[AValue],
    scope: &Scope,
    note: &[u8],
) -> Result<(), OutOfMemory>
    requires { 2 ≤ length values.now }
    ensures { OnOk result (text.new.items ≡
        text.old.items ++ form_text scope.now.types scope.now.names note.now (Arith op) (a_values values.now)) }
{
    write_let(text, scope.names, note)?;
    write_first(text, values, scope.types, scope.names)?;
    write_op(text, op)?;
    write_second(text, values, scope.types, scope.names)?;
    Ok(())
}

fn write_proj(
    text: &mut Vec<u8>,
    field: u64,
    values: &[AValue],
    scope: &Scope,
    note: &[u8],
) -> Result<(), OutOfMemory>
    requires { 1 ≤ length values.now }
    ensures { OnOk result (text.new.items ≡
        text.old.items ++ form_text scope.now.types scope.now.names note.now (Proj field) (a_values values.now)) }
{
    write_let(text, scope.names, note)?;
    text.extend_from_slice(b"#")?;
    write_natural(text, field)?;
    text.extend_from_slice(b" ")?;
    write_first(text, values, scope.types, scope.names)?;
    Ok(())
}

fn write_unpack(
    text: &mut Vec<u8>,
    values: &[AValue],
    scope: &Scope,
    note: &[u8],
) -> Result<(), OutOfMemory>
    requires { 1 ≤ length values.now }
    ensures { OnOk result (text.new.items ≡
        text.old.items ++ form_text scope.now.types scope.now.names note.now Unpack (a_values values.now)) }
{
    text.extend_from_slice(b"let [")?;
    write_type_name(text, scope.types)?;
    text.extend_from_slice(b", ")?;
    write_value_name(text, scope.names)?;
    text.extend_from_slice(note)?;
    text.extend_from_slice(b"] = unpack ")?;
    write_first(text, values, scope.types, scope.names)?;
    Ok(())
}

fn write_malloc(
    text: &mut Vec<u8>,
    types: &[AType],
    scope: &Scope,
    note: &[u8],
) -> Result<(), OutOfMemory>
    ensures { OnOk result (text.new.items ≡ text.old.items
        ++ malloc_text scope.now.types scope.now.names note.now (atrees types.now)) }
{
    write_let(text, scope.names, note)?;
    text.extend_from_slice(b"malloc[")?;
    write_types(text, types, 0, scope.types)?;
    text.extend_from_slice(b"]")?;
    Ok(())
}

fn write_init(
    text: &mut Vec<u8>,
    field: u64,
    values: &[AValue],
    scope: &Scope,
    note: &[u8],
) -> Result<(), OutOfMemory>
    requires { 2 ≤ length values.now }
    ensures { OnOk result (text.new.items ≡
        text.old.items ++ form_text scope.now.types scope.now.names note.now (Init field) (a_values values.now)) }
{
    write_let(text, scope.names, note)?;
    write_first(text, values, scope.types, scope.names)?;
    text.extend_from_slice(b"[")?;
    write_natural(text, field)?;
    text.extend_from_slice(b"] <- ")?;
    write_second(text, values, scope.types, scope.names)?;
    Ok(())
}

fn write_call(
    text: &mut Vec<u8>,
    types: &[AType],
    values: &[AValue],
    scope: &Scope,
) -> Result<(), OutOfMemory>
    requires { 1 ≤ length values.now }
    ensures { OnOk result (text.new.items ≡ text.old.items ++ call_text scope.now.types scope.now.names
        (top no_value (a_values values.now)) (atrees types.now) (others (a_values values.now))) }
{
    write_first(text, values, scope.types, scope.names)?;
    text.extend_from_slice(b"[")?;
    write_types(text, types, 0, scope.types)?;
    text.extend_from_slice(b"](")?;
    write_others(text, values, scope.types, scope.names)?;
    text.extend_from_slice(b")")?;
    Ok(())
}

// The line before both branches.
fn write_if0(text: &mut Vec<u8>, values: &[AValue], scope: &Scope) -> Result<(), OutOfMemory>
    requires { 1 ≤ length values.now }
    ensures { OnOk result (text.new.items ≡
        text.old.items ++ form_text scope.now.types scope.now.names [] If0 (a_values values.now)) }
{
    text.extend_from_slice(b"if0 ")?;
    write_first(text, values, scope.types, scope.names)?;
    text.extend_from_slice(b" then")?;
    Ok(())
}

fn write_halt(text: &mut Vec<u8>, values: &[AValue], scope: &Scope) -> Result<(), OutOfMemory>
    requires { 1 ≤ length values.now }
    ensures { OnOk result (text.new.items ≡
        text.old.items ++ form_text scope.now.types scope.now.names [] Halt (a_values values.now)) }
{
    text.extend_from_slice(b"halt ")?;
    write_first(text, values, scope.types, scope.names)?;
    Ok(())
}

/// What a node says on its line, with a text behind the name that it gives. An error is want of memory.
pub(crate) fn write_form(
    text: &mut Vec<u8>,
    form: &AForm,
    values: &[AValue],
    scope: &Scope,
    note: &[u8],
) -> Result<(), OutOfMemory>
    requires { least form.now ≤ length values.now }
    ensures { OnOk result (text.new.items ≡
        text.old.items ++ form_text scope.now.types scope.now.names note.now form.now (a_values values.now)) }
{
    match form {
        AForm::Value => write_named(text, values, scope, note),
        AForm::Proj(field) => write_proj(text, *field, values, scope, note),
        AForm::Arith(op) => write_arith(text, *op, values, scope, note),
        AForm::Unpack => write_unpack(text, values, scope, note),
        AForm::Malloc(types) => write_malloc(text, types, scope, note),
        AForm::Init(field) => write_init(text, *field, values, scope, note),
        AForm::Call(types) => write_call(text, types, values, scope),
        AForm::If0 => write_if0(text, values, scope),
        AForm::Halt => write_halt(text, values, scope),
    }
}
