// What a node says on its line, by the texts of its values.
ghost use Rattle.std.specs.Prelude.{◌≡◌, ◌≤◌, ◌<◌, [], ◌++◌, codes, length, OnOk};
ghost use Rattle.calc_core.specs.Row.{others, top};
ghost use Rattle.h_terms.specs.declared.node.HForm.TheVariants.{Arith, Proj, Set, Unpack};
ghost use Rattle.h_notation.specs.Notation.{let_text};
ghost use Rattle.h_notation.specs.Values.{call_line, form_line, joined_text, texts_of};
ghost use Rattle.h_notation.specs.Scopes.{least};
ghost use Rattle.c_terms.specs.Read.{ctys};

use crate::scope::Scope;
use c_terms::CType;
use h_terms::HForm;
use idx_core::{Op, OutOfMemory};
use let_types::write_types;
use page_core::{write_natural, write_op, write_separator, write_type_name, write_value_name};

// The first of some texts.
fn write_first(text: &mut Vec<u8>, values: &[Vec<u8>]) -> Result<(), OutOfMemory>
    requires { 0 < length values.now }
    ensures { OnOk result (text.new.items ≡ text.old.items ++ top [] (texts_of values.now)) }
{
    text.extend_from_slice(&values[0])?;
    Ok(())
}

// The second of some texts.
fn write_second(text: &mut Vec<u8>, values: &[Vec<u8>]) -> Result<(), OutOfMemory>
    requires { 1 < length values.now }
    ensures { OnOk result (text.new.items ≡ text.old.items ++ top [] (others (texts_of values.now))) }
{
    text.extend_from_slice(&values[1])?;
    Ok(())
}

// All texts but the first, with commas between them.
fn write_others(text: &mut Vec<u8>, values: &[Vec<u8>]) -> Result<(), OutOfMemory>
    ensures { OnOk result (text.new.items ≡ text.old.items ++ joined_text 0 (others (texts_of values.now))) }
{
    for at in 1..values.len() {
        write_separator(text, (at - 1) as u64)?;
        text.extend_from_slice(&values[at])?;
    }
    Ok(())
}

// The name that a declaration gives, and what stands behind it.
fn write_let(text: &mut Vec<u8>, names: u64, note: &[u8]) -> Result<(), OutOfMemory>
    ensures { OnOk result (text.new.items ≡ text.old.items ++ let_text names note.now) }
{
    text.extend_from_slice(b"let ")?;
    write_value_name(text, names)?;
    text.extend_from_slice(note)?;
    text.extend_from_slice(b" = ")?;
    Ok(())
}

// A declaration of a value as it stands.
fn write_name(
    text: &mut Vec<u8>,
    values: &[Vec<u8>],
    scope: &Scope,
    note: &[u8],
) -> Result<(), OutOfMemory>
    requires { 1 ≤ length values.now }
    ensures { OnOk result (text.new.items ≡
        text.old.items ++ (let_text scope.now.names note.now ++ top [] (texts_of values.now))) }
{
    write_let(text, scope.names, note)?;
    write_first(text, values)?;
    Ok(())
}

fn write_proj(
    text: &mut Vec<u8>,
    field: u64,
    values: &[Vec<u8>],
    scope: &Scope,
    note: &[u8],
) -> Result<(), OutOfMemory>
    requires { 1 ≤ length values.now }
    ensures { OnOk result (text.new.items ≡
        text.old.items ++ form_line scope.now.types scope.now.names note.now (Proj field) (texts_of values.now)) }
{
    write_let(text, scope.names, note)?;
    text.extend_from_slice(b"#")?;
    write_natural(text, field)?;
    text.extend_from_slice(b" ")?;
    write_first(text, values)?;
    Ok(())
}

fn write_arith(
    text: &mut Vec<u8>,
    op: Op,
    values: &[Vec<u8>],
    scope: &Scope,
    note: &[u8],
) -> Result<(), OutOfMemory>
    requires { 2 ≤ length values.now }
    ensures { OnOk result (text.new.items ≡
        text.old.items ++ form_line scope.now.types scope.now.names note.now (Arith op) (texts_of values.now)) }
{
    write_let(text, scope.names, note)?;
    write_first(text, values)?;
    write_op(text, op)?;
    write_second(text, values)?;
    Ok(())
}

fn write_unpack(
    text: &mut Vec<u8>,
    values: &[Vec<u8>],
    scope: &Scope,
    note: &[u8],
) -> Result<(), OutOfMemory>
    requires { 1 ≤ length values.now }
    ensures { OnOk result (text.new.items ≡
        text.old.items ++ form_line scope.now.types scope.now.names note.now Unpack (texts_of values.now)) }
{
    text.extend_from_slice(b"let [")?;
    write_type_name(text, scope.types)?;
    text.extend_from_slice(b", ")?;
    write_value_name(text, scope.names)?;
    text.extend_from_slice(note)?;
    text.extend_from_slice(b"] = unpack ")?;
    write_first(text, values)?;
    Ok(())
}

fn write_set(
    text: &mut Vec<u8>,
    values: &[Vec<u8>],
    scope: &Scope,
    note: &[u8],
) -> Result<(), OutOfMemory>
    requires { 2 ≤ length values.now }
    ensures { OnOk result (text.new.items ≡
        text.old.items ++ form_line scope.now.types scope.now.names note.now Set (texts_of values.now)) }
{
    write_let(text, scope.names, note)?;
    write_first(text, values)?;
    text.extend_from_slice(b" := ")?;
    write_second(text, values)?;
    Ok(())
}

fn write_call(
    text: &mut Vec<u8>,
    types: &[CType],
    values: &[Vec<u8>],
    scope: &Scope,
) -> Result<(), OutOfMemory>
    requires { 1 ≤ length values.now }
    ensures { OnOk result (text.new.items ≡
        text.old.items ++ call_line scope.now.types (ctys types.now) (texts_of values.now)) }
{
    write_first(text, values)?;
    text.extend_from_slice(b"[")?;
    write_types(text, types, scope.types)?;
    text.extend_from_slice(b"](")?;
    write_others(text, values)?;
    text.extend_from_slice(b")")?;
    Ok(())
}

// A declaration of a word before its value.
fn write_worded(
    text: &mut Vec<u8>,
    word: &[u8],
    values: &[Vec<u8>],
    scope: &Scope,
    note: &[u8],
) -> Result<(), OutOfMemory>
    requires { 1 ≤ length values.now }
    ensures { OnOk result (text.new.items ≡
        text.old.items ++ (let_text scope.now.names note.now ++ (word.now ++ top [] (texts_of values.now)))) }
{
    write_let(text, scope.names, note)?;
    text.extend_from_slice(word)?;
    write_first(text, values)?;
    Ok(())
}

// The line before both branches.
fn write_if0(text: &mut Vec<u8>, values: &[Vec<u8>]) -> Result<(), OutOfMemory>
    requires { 1 ≤ length values.now }
    ensures { OnOk result (text.new.items ≡
        text.old.items ++ (codes "if0 " ++ (top [] (texts_of values.now) ++ codes " then"))) }
{
    text.extend_from_slice(b"if0 ")?;
    write_first(text, values)?;
    text.extend_from_slice(b" then")?;
    Ok(())
}

fn write_halt(text: &mut Vec<u8>, values: &[Vec<u8>]) -> Result<(), OutOfMemory>
    requires { 1 ≤ length values.now }
    ensures { OnOk result (text.new.items ≡
        text.old.items ++ (codes "halt " ++ top [] (texts_of values.now))) }
{
    text.extend_from_slice(b"halt ")?;
    write_first(text, values)?;
    Ok(())
}

/// What a node says on its line, by the texts of its values, with a text behind the name that it gives. An error is
/// want of memory.
pub(crate) fn write_form(
    text: &mut Vec<u8>,
    form: &HForm,
    values: &[Vec<u8>],
    scope: &Scope,
    note: &[u8],
) -> Result<(), OutOfMemory>
    requires { least form.now ≤ length values.now }
    ensures { OnOk result (text.new.items ≡
        text.old.items ++ form_line scope.now.types scope.now.names note.now form.now (texts_of values.now)) }
{
    match form {
        HForm::Name => write_name(text, values, scope, note),
        HForm::Proj(field) => write_proj(text, *field, values, scope, note),
        HForm::Arith(op) => write_arith(text, *op, values, scope, note),
        HForm::Unpack => write_unpack(text, values, scope, note),
        HForm::Cell => write_worded(text, b"ref ", values, scope, note),
        HForm::Get => write_worded(text, b"!", values, scope, note),
        HForm::Set => write_set(text, values, scope, note),
        HForm::Call(types) => write_call(text, types, values, scope),
        HForm::If0 => write_if0(text, values),
        HForm::Halt => write_halt(text, values),
    }
}
