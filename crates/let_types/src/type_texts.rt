// Types.
ghost use Rattle.std.specs.Prelude.{◌≡◌, ◌++◌, ◌+◌, ◌&&◌, drop, codes, IfOk, OnOk};
ghost use Rattle.page_core.specs.Names.{type_name, type_names};
ghost use Rattle.c_terms.specs.Read.{ctree, ctys};
ghost use Rattle.let_types.specs.TypeTexts.{applied_text, closure_code, closure_fields, closure_text, is_closure};
ghost use Rattle.let_types.specs.TypeTexts.{pack_behind, pack_front, plain_texts, text_of, texts_after};
ghost use Rattle.let_types.specs.TypeTexts.{type_text, types_text};

use crate::closures::is_closure;
use c_terms::CType;
use idx_core::{OutOfMemory, sum};
use page_core::{write_separator, write_type_name, write_type_names};
use std::alloc::Global;

// What a code or a closure begins with, up to its arguments, and how many type names are around these.
fn write_owed(text: &mut Vec<u8>, word: &[u8], depth: u64, owes: u64) -> Result<u64, OutOfMemory>
    ensures inner { IfOk result (λ inner. inner ≡ depth + owes) }
    ensures written { OnOk result (text.new.items ≡
        text.old.items ++ (word.now ++ type_names depth owes ++ codes "(")) }
{
    text.extend_from_slice(word)?;
    write_type_names(text, depth, owes)?;
    text.extend_from_slice(b"(")?;
    let inner = sum(depth, owes)?;
    Ok(inner)
}

fn write_some(text: &mut Vec<u8>, depth: u64) -> Result<(), OutOfMemory>
    ensures { OnOk result (text.new.items ≡ text.old.items ++ (codes "some " ++ type_name depth ++ codes ". ")) }
{
    text.extend_from_slice(b"some ")?;
    write_type_name(text, depth)?;
    text.extend_from_slice(b". ")?;
    Ok(())
}

// Whether a package's type, by what it holds, is written as a closure's.
fn is_short(t: &CType, closures: bool) -> bool
    ensures { result ≡ (closures && is_closure (ctree t.now)) }
{
    if !closures {
        return false;
    }
    is_closure(t)
}

/// Puts a type inside `depth` type names at the end of a text. With closures, `some b. <code[as](b, ts), b>` where `ts`
/// don't name `b` is written `closure[as](ts)` (own choice). It takes time by the size of the type and by how deep
/// packages nest in it. An error is want of memory; more type names around a place than a word counts are more than
/// memory holds.
#[cycle(types)]
pub fn write_any(
    text: &mut Vec<u8>,
    t: &CType,
    depth: u64,
    closures: bool,
) -> Result<(), OutOfMemory>
    ensures { OnOk result (text.new.items ≡ text.old.items ++ text_of closures depth (ctree t.now)) }
{
    match t {
        CType::Int => {
            text.extend_from_slice(b"int")?;
            Ok(())
        }
        CType::Var(i) => write_type_name(text, depth.saturating_sub(1).saturating_sub(*i)),
        CType::Tuple(ts) => {
            text.extend_from_slice(b"<")?;
            write_from(text, ts, 0, depth, closures)?;
            text.extend_from_slice(b">")?;
            Ok(())
        }
        CType::Code { owes, args } => {
            let inner = write_owed(text, b"code", depth, *owes)?;
            write_from(text, args, 0, inner, closures)?;
            text.extend_from_slice(b")")?;
            Ok(())
        }
        CType::Exists(t) => {
            let inner = sum(depth, 1)?;
            if is_short(t, closures) {
                return write_closure(text, t, inner);
            }
            write_some(text, depth)?;
            write_any(text, t, inner, closures)
        }
        CType::Ref(t) => {
            text.extend_from_slice(b"ref ")?;
            write_any(text, t, depth, closures)
        }
    }
}

// Several types, from a place on, with commas between them.
#[cycle(types)]
fn write_from(
    text: &mut Vec<u8>,
    ts: &[CType],
    from: usize,
    depth: u64,
    closures: bool,
) -> Result<(), OutOfMemory>
    ensures { OnOk result (text.new.items ≡ text.old.items ++ texts_after closures 0 depth (ctys (drop from ts.now))) }
{
    for i in from..ts.len() {
        write_separator(text, (i - from) as u64)?;
        write_any(text, &ts[i], depth, closures)?;
    }
    Ok(())
}

// The closure whose code and environment are these two, as one type.
#[cycle(types)]
fn write_closure(text: &mut Vec<u8>, t: &CType, depth: u64) -> Result<(), OutOfMemory>
    ensures { OnOk result (text.new.items ≡ text.old.items ++ closure_text depth (ctree t.now)) }
{
    match t {
        CType::Tuple(ts) => write_closure_fields(text, ts, depth),
        _ => Ok(()),
    }
}

#[cycle(types)]
fn write_closure_fields(text: &mut Vec<u8>, ts: &[CType], depth: u64) -> Result<(), OutOfMemory>
    ensures { OnOk result (text.new.items ≡ text.old.items ++ closure_fields depth (ctys ts.now)) }
{
    if ts.is_empty() {
        return Ok(());
    }
    write_closure_code(text, &ts[0], depth)
}

#[cycle(types)]
fn write_closure_code(text: &mut Vec<u8>, t: &CType, depth: u64) -> Result<(), OutOfMemory>
    ensures { OnOk result (text.new.items ≡ text.old.items ++ closure_code depth (ctree t.now)) }
{
    match t {
        CType::Code { owes, args } => {
            let inner = write_owed(text, b"closure", depth, *owes)?;
            write_from(text, args, 1, inner, true)?;
            text.extend_from_slice(b")")?;
            Ok(())
        }
        _ => Ok(()),
    }
}

/// The same with closures.
pub fn write_type(text: &mut Vec<u8>, t: &CType, depth: u64) -> Result<(), OutOfMemory>
    ensures { OnOk result (text.new.items ≡ text.old.items ++ type_text depth (ctree t.now)) }
{
    write_any(text, t, depth, true)
}

/// The same of several types, with commas between them.
pub fn write_types(text: &mut Vec<u8>, ts: &[CType], depth: u64) -> Result<(), OutOfMemory>
    ensures { OnOk result (text.new.items ≡ text.old.items ++ types_text depth (ctys ts.now)) }
{
    write_from(text, ts, 0, depth, true)
}

/// The same of several types without closures.
pub fn write_plain_types(text: &mut Vec<u8>, ts: &[CType], depth: u64) -> Result<(), OutOfMemory>
    ensures { OnOk result (text.new.items ≡ text.old.items ++ plain_texts depth (ctys ts.now)) }
{
    write_from(text, ts, 0, depth, false)
}

/// What stands behind a value that is applied to types. An error is as that of `write_type`.
pub fn types_applied(alloc: Global, ts: &[CType], depth: u64) -> Result<Vec<u8>, OutOfMemory>
    ensures { IfOk result (λ text. text.items ≡ applied_text depth (ctys ts.now)) }
{
    if ts.is_empty() {
        return Ok(Vec::new(alloc));
    }
    let mut text = Vec::from_slice(alloc, b"[")?;
    write_types(&mut text, ts, depth)?;
    text.extend_from_slice(b"]")?;
    Ok(text)
}

/// What stands in front of the value in a package. An error is as that of `write_type`.
pub fn before_packed(alloc: Global, hidden: &CType, depth: u64) -> Result<Vec<u8>, OutOfMemory>
    ensures { IfOk result (λ text. text.items ≡ pack_front depth (ctree hidden.now)) }
{
    let mut text = Vec::from_slice(alloc, b"pack [")?;
    write_type(&mut text, hidden, depth)?;
    text.extend_from_slice(b", ")?;
    Ok(text)
}

/// What stands behind it. An error is as that of `write_type`.
pub fn behind_packed(alloc: Global, shape: &CType, depth: u64) -> Result<Vec<u8>, OutOfMemory>
    ensures { IfOk result (λ text. text.items ≡ pack_behind depth (ctree shape.now)) }
{
    let mut text = Vec::from_slice(alloc, b"] as ")?;
    write_type(&mut text, shape, depth)?;
    Ok(text)
}
