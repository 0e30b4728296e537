// The values of a node, by a stack of pieces.
ghost use Rattle.std.specs.Prelude.{◌≡◌, ◌-◌, ◌∷◌, ◌++◌, ℕ, List, [], map, codes, decimal, IfOk, OnOk};
ghost use Rattle.c_terms.specs.Read.{ctree, ctys};
ghost use Rattle.let_types.specs.TypeTexts.{type_text};
ghost use Rattle.h_terms.specs.H.{HVal};
ghost use Rattle.h_terms.specs.Nodes.{at_last, more, reads};
ghost use Rattle.page_core.specs.Names.{number, value_name};
ghost use Rattle.page_core.specs.Pieces.{text_at, Keeps, HasText};
ghost use Rattle.h_notation.specs.Notation.{value_text};
ghost use Rattle.h_notation.specs.Values.{HaveValues, texts_of};

use crate::fields::put_tuple;
use crate::scope::Scope;
use c_terms::CType;
use h_terms::HPart;
use idx_core::OutOfMemory;
use let_types::{before_packed, behind_packed, types_applied};
use page_core::{Pieces, write_integer, write_natural, write_value_name};
use std::alloc::Global;

fn variable_text(alloc: Global, i: u64, names: u64) -> Result<Vec<u8>, OutOfMemory>
    ensures { IfOk result (λ b. b.items ≡ value_name (names - 1 - i)) }
{
    let mut text = Vec::new(alloc);
    write_value_name(&mut text, names.saturating_sub(1).saturating_sub(i))?;
    Ok(text)
}

fn integer_text(alloc: Global, z: i64) -> Result<Vec<u8>, OutOfMemory>
    ensures { IfOk result (λ b. b.items ≡ number z) }
{
    let mut text = Vec::new(alloc);
    write_integer(&mut text, z)?;
    Ok(text)
}

fn label_text(alloc: Global, label: u64) -> Result<Vec<u8>, OutOfMemory>
    ensures { IfOk result (λ b. b.items ≡ codes "L" ++ decimal label) }
{
    let mut text = Vec::from_slice(alloc, b"L")?;
    write_natural(&mut text, label)?;
    Ok(text)
}

// One more value.
fn put(pieces: &mut Pieces, stack: &mut Vec<u64>, text: Vec<u8>) -> Result<(), OutOfMemory>
    ensures { OnOk result ((n m : ℕ) (vs : List HVal) (v : HVal) → text.items ≡ value_text n m v →
        HaveValues pieces.old n m stack.old.items vs → HaveValues pieces.new n m stack.new.items (vs ++ v ∷ [])) }
{
    let piece = pieces.bytes(text)?;
    stack.push(piece)?;
    Ok(())
}

// A piece with text before it and behind it.
fn around(
    pieces: &mut Pieces,
    inner: u64,
    before: Vec<u8>,
    behind: Vec<u8>,
) -> Result<u64, OutOfMemory>
    ensures keeps { OnOk result (Keeps pieces.old pieces.new) }
    ensures stands { IfOk result (λ whole. (s : List ℕ) → HasText pieces.old inner s →
        HasText pieces.new whole (before.items ++ (s ++ behind.items))) }
{
    let first = pieces.bytes(before)?;
    let last = pieces.bytes(behind)?;
    let tail = pieces.joined(inner, last)?;
    let whole = pieces.joined(first, tail)?;
    Ok(whole)
}

// Text before and behind the last value.
fn wrap(
    pieces: &mut Pieces,
    stack: &mut Vec<u64>,
    before: Vec<u8>,
    behind: Vec<u8>,
) -> Result<(), OutOfMemory>
    ensures { OnOk result ((n m : ℕ) (vs : List HVal) (f : HVal → HVal) →
        ((v : HVal) → value_text n m (f v) ≡ before.items ++ (value_text n m v ++ behind.items)) →
        HaveValues pieces.old n m stack.old.items vs → HaveValues pieces.new n m stack.new.items (at_last f vs)) }
{
    match stack.pop() {
        None => Ok(()),
        Some(inner) => {
            let whole = around(pieces, inner, before, behind)?;
            stack.push(whole)?;
            Ok(())
        }
    }
}

// One more part of a value.
fn put_part(
    alloc: Global,
    pieces: &mut Pieces,
    stack: &mut Vec<u64>,
    part: &HPart,
    scope: &Scope,
) -> Result<(), OutOfMemory>
    ensures { OnOk result ((vs : List HVal) →
        HaveValues pieces.old scope.now.types scope.now.names stack.old.items vs →
        HaveValues pieces.new scope.now.types scope.now.names stack.new.items (more part.now vs)) }
{
    match part {
        HPart::Var(i) => {
            let text = variable_text(alloc, *i, scope.names)?;
            put(pieces, stack, text)?;
            Ok(())
        }
        HPart::Int(z) => {
            let text = integer_text(alloc, *z)?;
            put(pieces, stack, text)?;
            Ok(())
        }
        HPart::Label(l) => {
            let text = label_text(alloc, *l)?;
            put(pieces, stack, text)?;
            Ok(())
        }
        HPart::Tuple(count) => {
            put_tuple(alloc, pieces, stack, *count)?;
            Ok(())
        }
        HPart::Apply(ts) => {
            let before = Vec::new(alloc);
            let behind = types_applied(alloc, ts, scope.types)?;
            wrap(pieces, stack, before, behind)?;
            Ok(())
        }
        HPart::Pack { hidden, shape } => {
            let before = before_packed(alloc, hidden, scope.types)?;
            let behind = behind_packed(alloc, shape, scope.types)?;
            wrap(pieces, stack, before, behind)?;
            Ok(())
        }
    }
}

// The texts of pieces, in order.
fn spelled(alloc: Global, pieces: &Pieces, stack: &[u64]) -> Result<Vec<Vec<u8>>, OutOfMemory>
    ensures { IfOk result (λ texts. texts_of texts.items ≡ map (text_at pieces.now) stack.now) }
{
    let mut texts = Vec::new(alloc);
    for piece in stack {
        let text = pieces.text(*piece)?;
        texts.push(text)?;
    }
    Ok(texts)
}

/// The texts of the values that these parts make. An error is want of memory.
pub(crate) fn texts_of_parts(
    alloc: Global,
    parts: &[HPart],
    scope: &Scope,
) -> Result<Vec<Vec<u8>>, OutOfMemory>
    ensures { IfOk result (λ texts.
        texts_of texts.items ≡ map (value_text scope.now.types scope.now.names) (reads [] parts.now)) }
{
    let mut pieces = Pieces::new(alloc);
    let mut stack = Vec::new(alloc);
    for part in parts {
        put_part(alloc, &mut pieces, &mut stack, part, scope)?;
    }
    let texts = spelled(alloc, &pieces, &stack)?;
    Ok(texts)
}
