// The text of a piece, by a loop over the pieces that are still to come.
ghost use Rattle.std.specs.Prelude.{◌≡◌, ◌++◌, ◌<◌, ◌+◌, [], IfOk, OnOk, slice_index_or};
ghost use Rattle.page_core.specs.Texts.{texts, spelled, steps, work_of, part_before};

use crate::piece::Piece;
use idx_core::OutOfMemory;
use std::alloc::Global;

// A part of a piece comes next. Parts stand before the whole, and a number that doesn't is a part of no bytes.
fn push_part(pending: &mut Vec<u64>, part: u64, whole: u64) -> Result<(), OutOfMemory>
    ensures { OnOk result (pending.new.items ≡ pending.old.items ++ part_before part whole) }
{
    if part < whole {
        pending.push(part)?;
    }
    Ok(())
}

// A piece is spelled, or its parts come next.
fn step(
    text: &mut Vec<u8>,
    pending: &mut Vec<u64>,
    pieces: &[Piece],
    number: u64,
) -> Result<(), OutOfMemory>
    ensures is { OnOk result (text.new.items ++ spelled (texts pieces.now) pending.new.items ≡
        text.old.items ++ (slice_index_or (texts pieces.now) number [] ++
        spelled (texts pieces.now) pending.old.items)) }
    ensures less { OnOk result (work_of (steps pieces.now) pending.new.items <
        1 + (slice_index_or (steps pieces.now) number 0 + work_of (steps pieces.now) pending.old.items)) }
{
    match pieces.get(number as usize) {
        None => Ok(()),
        Some(Piece::Bytes(bytes)) => {
            text.extend_from_slice(bytes)?;
            Ok(())
        }
        Some(Piece::Joined(first, second)) => {
            push_part(pending, *second, number)?;
            push_part(pending, *first, number)?;
            Ok(())
        }
    }
}

/// The text of a piece.
pub(crate) fn spell(alloc: Global, pieces: &[Piece], piece: u64) -> Result<Vec<u8>, OutOfMemory>
    ensures { IfOk result (λ text. text.items ≡ slice_index_or (texts pieces.now) piece []) }
{
    let mut text = Vec::new(alloc);
    let mut pending = Vec::new(alloc);
    pending.push(piece)?;
    while let Some(number) = pending.pop() {
        step(&mut text, &mut pending, pieces, number)?;
    }
    Ok(text)
}
