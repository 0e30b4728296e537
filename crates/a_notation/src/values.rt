// Values.
ghost use Rattle.std.specs.Prelude.{◌≡◌, ◌∷◌, ◌++◌, ◌<◌, ℕ, decimal, length, OnOk};
ghost use Rattle.a_terms.specs.NodeTrees.{a_consts, a_value, a_values, no_value};
ghost use Rattle.a_terms.specs.NodeTrees.{base as base_of};
ghost use Rattle.calc_core.specs.Row.{others, top};
ghost use Rattle.a_notation.specs.Notation.{consts_text, value_text, values_text};
ghost use Rattle.a_notation.specs.Wraps.{after_text, before_text, closing, opening};

use crate::types::{write_applied, write_type};
use a_terms::{ABase, AType, AValue, AWrap};
use idx_core::OutOfMemory;
use page_core::{write_integer, write_natural, write_separator, write_value_name};

// A letter and a number.
fn write_label(text: &mut Vec<u8>, letter: u8, number: u64) -> Result<(), OutOfMemory>
    ensures { OnOk result (text.new.items ≡ text.old.items ++ (letter ∷ decimal number)) }
{
    text.push(letter)?;
    write_natural(text, number)
}

// What a value begins with, inside so many value names.
fn write_base(text: &mut Vec<u8>, base: &ABase, names: u64) -> Result<(), OutOfMemory>
    ensures { OnOk result ((n : ℕ) → text.new.items ≡ text.old.items ++ value_text n names (base_of base.now)) }
{
    match base {
        ABase::Var(i) => {
            write_value_name(text, names.saturating_sub(1).saturating_sub(*i))?;
            Ok(())
        }
        ABase::Int(z) => {
            write_integer(text, *z)?;
            Ok(())
        }
        ABase::Label(l) => {
            write_label(text, b'L', *l)?;
            Ok(())
        }
        ABase::Data(d) => {
            write_label(text, b'D', *d)?;
            Ok(())
        }
    }
}

// What stands before a value that is wrapped.
fn write_opening(text: &mut Vec<u8>, wrap: &AWrap, types: u64) -> Result<(), OutOfMemory>
    ensures { OnOk result (text.new.items ≡ text.old.items ++ opening types wrap.now) }
{
    match wrap {
        AWrap::Apply(_) => Ok(()),
        AWrap::Pack { hidden, .. } => {
            text.extend_from_slice(b"pack [")?;
            write_type(text, hidden, types)?;
            text.extend_from_slice(b", ")?;
            Ok(())
        }
    }
}

// What stands behind a value that is wrapped.
fn write_closing(text: &mut Vec<u8>, wrap: &AWrap, types: u64) -> Result<(), OutOfMemory>
    ensures { OnOk result (text.new.items ≡ text.old.items ++ closing types wrap.now) }
{
    match wrap {
        AWrap::Apply(ts) => write_applied(text, ts, types),
        AWrap::Pack { shape, .. } => {
            text.extend_from_slice(b"] as ")?;
            write_type(text, shape, types)
        }
    }
}

// What stands before a value, from the outside.
fn write_before(text: &mut Vec<u8>, wraps: &[AWrap], types: u64) -> Result<(), OutOfMemory>
    ensures { OnOk result (text.new.items ≡ text.old.items ++ before_text types wraps.now) }
{
    let mut left = wraps.len();
    while left > 0 {
        left -= 1;
        write_opening(text, &wraps[left], types)?;
    }
    Ok(())
}

// What stands behind a value, from the inside.
fn write_after(text: &mut Vec<u8>, wraps: &[AWrap], types: u64) -> Result<(), OutOfMemory>
    ensures { OnOk result (text.new.items ≡ text.old.items ++ after_text types wraps.now) }
{
    for wrap in wraps {
        write_closing(text, wrap, types)?;
    }
    Ok(())
}

/// A value inside so many type names and value names. An error is want of memory.
pub(crate) fn write_value(
    text: &mut Vec<u8>,
    value: &AValue,
    types: u64,
    names: u64,
) -> Result<(), OutOfMemory>
    ensures { OnOk result (text.new.items ≡ text.old.items ++ value_text types names (a_value value.now)) }
{
    write_before(text, &value.wraps, types)?;
    write_base(text, &value.base, names)?;
    write_after(text, &value.wraps, types)?;
    Ok(())
}

/// The first of some values. An error is want of memory.
pub(crate) fn write_first(
    text: &mut Vec<u8>,
    values: &[AValue],
    types: u64,
    names: u64,
) -> Result<(), OutOfMemory>
    requires { 0 < length values.now }
    ensures { OnOk result (text.new.items ≡
        text.old.items ++ value_text types names (top no_value (a_values values.now))) }
{
    write_value(text, &values[0], types, names)
}

/// The second of some values. An error is want of memory.
pub(crate) fn write_second(
    text: &mut Vec<u8>,
    values: &[AValue],
    types: u64,
    names: u64,
) -> Result<(), OutOfMemory>
    requires { 1 < length values.now }
    ensures { OnOk result (text.new.items ≡
        text.old.items ++ value_text types names (top no_value (others (a_values values.now)))) }
{
    write_value(text, &values[1], types, names)
}

/// All values but the first, with commas between them. An error is want of memory.
pub(crate) fn write_others(
    text: &mut Vec<u8>,
    values: &[AValue],
    types: u64,
    names: u64,
) -> Result<(), OutOfMemory>
    ensures { OnOk result (text.new.items ≡
        text.old.items ++ values_text 0 types names (others (a_values values.now))) }
{
    for at in 1..values.len() {
        write_separator(text, (at - 1) as u64)?;
        write_value(text, &values[at], types, names)?;
    }
    Ok(())
}

/// The values of a data tuple, with commas between them. An error is want of memory.
pub(crate) fn write_consts(
    text: &mut Vec<u8>,
    fields: &[(AValue, AType)],
) -> Result<(), OutOfMemory>
    ensures { OnOk result (text.new.items ≡ text.old.items ++ consts_text 0 (a_consts fields.now)) }
{
    for (i, field) in fields.iter().enumerate() {
        write_separator(text, i as u64)?;
        write_value(text, &field.0, 0, 0)?;
    }
    Ok(())
}
