// Types.
ghost use Rattle.std.specs.Prelude.{◌≡◌, ◌++◌, ◌+◌, codes, drop, OnOk};
ghost use Rattle.a_terms.specs.Tree.{AExists};
ghost use Rattle.a_terms.specs.Read.{afields, atree, atrees};
ghost use Rattle.page_core.specs.Names.{type_names};
ghost use Rattle.a_notation.specs.Types.{applied_text, closure_text, code_text, fields_text, first_text, flag_text};
ghost use Rattle.a_notation.specs.Types.{type_text, types_text};

use crate::closures::is_closure;
use a_terms::AType;
use idx_core::{OutOfMemory, sum};
use page_core::{write_separator, write_type_name, write_type_names};

fn write_flag(text: &mut Vec<u8>, flag: bool) -> Result<(), OutOfMemory>
    ensures { OnOk result (text.new.items ≡ text.old.items ++ flag_text flag) }
{
    if flag {
        return Ok(());
    }
    text.push(b'?')?;
    Ok(())
}

/// A type inside `depth` type names. An error is want of memory.
#[cycle(types)]
pub(crate) fn write_type(text: &mut Vec<u8>, t: &AType, depth: u64) -> Result<(), OutOfMemory>
    ensures { OnOk result (text.new.items ≡ text.old.items ++ type_text depth (atree t.now)) }
{
    match t {
        AType::Int => {
            text.extend_from_slice(b"int")?;
            Ok(())
        }
        AType::Var(i) => write_type_name(text, depth.saturating_sub(1).saturating_sub(*i)),
        AType::Tuple(fields) => {
            text.extend_from_slice(b"<")?;
            write_fields(text, fields, depth)?;
            text.extend_from_slice(b">")?;
            Ok(())
        }
        AType::Code { owes, args } => {
            text.extend_from_slice(b"code")?;
            write_code(text, *owes, args, 0, depth)
        }
        AType::Exists(body) => write_package(text, body, depth),
    }
}

// The names of the types that code owes, and its arguments from a place on.
#[cycle(types)]
fn write_code(
    text: &mut Vec<u8>,
    owes: u64,
    args: &[AType],
    from: usize,
    depth: u64,
) -> Result<(), OutOfMemory>
    ensures { OnOk result (text.new.items ≡ text.old.items ++ (type_names depth owes
        ++ (codes "(" ++ (types_text 0 (depth + owes) (atrees (drop from args.now)) ++ codes ")")))) }
{
    let inner = sum(depth, owes)?;
    write_type_names(text, depth, owes)?;
    text.extend_from_slice(b"(")?;
    write_types(text, args, from, inner)?;
    text.extend_from_slice(b")")?;
    Ok(())
}

/// The types from a place on, with commas between them. An error is want of memory.
#[cycle(types)]
pub(crate) fn write_types(
    text: &mut Vec<u8>,
    ts: &[AType],
    from: usize,
    depth: u64,
) -> Result<(), OutOfMemory>
    ensures { OnOk result (text.new.items ≡ text.old.items ++ types_text 0 depth (atrees (drop from ts.now))) }
{
    for at in from..ts.len() {
        write_separator(text, (at - from) as u64)?;
        write_type(text, &ts[at], depth)?;
    }
    Ok(())
}

#[cycle(types)]
fn write_fields(text: &mut Vec<u8>, fields: &[(AType, bool)], depth: u64) -> Result<(), OutOfMemory>
    ensures { OnOk result (text.new.items ≡ text.old.items ++ fields_text 0 depth (afields fields.now)) }
{
    for (i, field) in fields.iter().enumerate() {
        write_separator(text, i as u64)?;
        write_type(text, &field.0, depth)?;
        write_flag(text, field.1)?;
    }
    Ok(())
}

// A package with this type inside.
#[cycle(types)]
fn write_package(text: &mut Vec<u8>, body: &AType, depth: u64) -> Result<(), OutOfMemory>
    ensures { OnOk result (text.new.items ≡ text.old.items ++ type_text depth (AExists (atree body.now))) }
{
    let inner = sum(depth, 1)?;
    if is_closure(body)? {
        text.extend_from_slice(b"closure")?;
        return write_closure(text, body, inner);
    }
    text.extend_from_slice(b"some ")?;
    write_type_name(text, depth)?;
    text.extend_from_slice(b". ")?;
    write_type(text, body, inner)
}

// What stands behind the word of a closure, from the type inside its package.
#[cycle(types)]
fn write_closure(text: &mut Vec<u8>, body: &AType, depth: u64) -> Result<(), OutOfMemory>
    ensures { OnOk result (text.new.items ≡ text.old.items ++ closure_text depth (atree body.now)) }
{
    match body {
        AType::Tuple(fields) => write_first(text, fields, depth),
        AType::Int | AType::Var(_) | AType::Code { .. } | AType::Exists(_) => Ok(()),
    }
}

#[cycle(types)]
fn write_first(text: &mut Vec<u8>, fields: &[(AType, bool)], depth: u64) -> Result<(), OutOfMemory>
    ensures { OnOk result (text.new.items ≡ text.old.items ++ first_text depth (afields fields.now)) }
{
    if fields.is_empty() {
        return Ok(());
    }
    write_closed_code(text, &fields[0].0, depth)
}

#[cycle(types)]
fn write_closed_code(text: &mut Vec<u8>, code: &AType, depth: u64) -> Result<(), OutOfMemory>
    ensures { OnOk result (text.new.items ≡ text.old.items ++ code_text depth (atree code.now)) }
{
    match code {
        AType::Code { owes, args } => write_code(text, *owes, args, 1, depth),
        AType::Int | AType::Var(_) | AType::Tuple(_) | AType::Exists(_) => Ok(()),
    }
}

/// The types that a value is applied to, in brackets where there are any. An error is want of memory.
pub(crate) fn write_applied(text: &mut Vec<u8>, ts: &[AType], depth: u64) -> Result<(), OutOfMemory>
    ensures { OnOk result (text.new.items ≡ text.old.items ++ applied_text depth (atrees ts.now)) }
{
    if ts.is_empty() {
        return Ok(());
    }
    text.extend_from_slice(b"[")?;
    write_types(text, ts, 0, depth)?;
    text.extend_from_slice(b"]")?;
    Ok(())
}
