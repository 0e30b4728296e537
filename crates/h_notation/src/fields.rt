// Tuples, of the pieces of their fields.
ghost use Rattle.std.specs.Prelude.{◌++◌, ℕ, List, IfOk, OnOk};
ghost use Rattle.h_terms.specs.H.{HTuple, HVal};
ghost use Rattle.h_terms.specs.Nodes.{tied, tupled};
ghost use Rattle.page_core.specs.Names.{separator};
ghost use Rattle.page_core.specs.Pieces.{Keeps, HasText};
ghost use Rattle.h_notation.specs.Notation.{value_text};
ghost use Rattle.h_notation.specs.Values.{HaveValues};

use idx_core::OutOfMemory;
use page_core::{Pieces, write_separator};
use std::alloc::Global;

// A piece with one field more, which so many stand before.
fn join_field(
    alloc: Global,
    pieces: &mut Pieces,
    piece: u64,
    field: u64,
    before: u64,
) -> Result<u64, OutOfMemory>
    ensures keeps { OnOk result (Keeps pieces.old pieces.new) }
    ensures stands { IfOk result (λ whole. (s t : List ℕ) → HasText pieces.old piece s → HasText pieces.old field t →
        HasText pieces.new whole (s ++ (separator before ++ t))) }
{
    let mut comma = Vec::new(alloc);
    write_separator(&mut comma, before)?;
    let gap = pieces.bytes(comma)?;
    let tail = pieces.joined(gap, field)?;
    let whole = pieces.joined(piece, tail)?;
    Ok(whole)
}

// The piece of a tuple of these fields.
fn join_fields(alloc: Global, pieces: &mut Pieces, fields: &[u64]) -> Result<u64, OutOfMemory>
    ensures keeps { OnOk result (Keeps pieces.old pieces.new) }
    ensures stands { IfOk result (λ whole. (n m : ℕ) (vs : List HVal) → HaveValues pieces.old n m fields.now vs →
        HasText pieces.new whole (value_text n m (HTuple (tied vs)))) }
{
    let open_angle = Vec::from_slice(alloc, b"<")?;
    let mut piece = pieces.bytes(open_angle)?;
    for (i, field) in fields.iter().enumerate() {
        piece = join_field(alloc, pieces, piece, *field, i as u64)?;
    }
    let close_angle = Vec::from_slice(alloc, b">")?;
    let close = pieces.bytes(close_angle)?;
    let whole = pieces.joined(piece, close)?;
    Ok(whole)
}

/// The last so many values become a tuple. An error is want of memory.
pub(crate) fn put_tuple(
    alloc: Global,
    pieces: &mut Pieces,
    stack: &mut Vec<u64>,
    count: u64,
) -> Result<(), OutOfMemory>
    ensures { OnOk result ((n m : ℕ) (vs : List HVal) → HaveValues pieces.old n m stack.old.items vs →
        HaveValues pieces.new n m stack.new.items (tupled count vs)) }
{
    let from = stack.len().saturating_sub(count as usize);
    let whole = join_fields(alloc, pieces, &stack[from..])?;
    stack.truncate(from);
    stack.push(whole)?;
    Ok(())
}
