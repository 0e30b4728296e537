// Pieces put together.
ghost use Rattle.std.specs.Prelude.{◌++◌, ℕ, List, IfOk, OnOk};
ghost use Rattle.page_core.specs.Names.{separator};
ghost use Rattle.page_core.specs.Pieces.{Keeps, HasText};

use idx_core::OutOfMemory;
use page_core::{Pieces, write_separator};
use std::alloc::Global;

// A piece of these bytes.
pub(crate) fn piece_of(alloc: Global, pieces: &mut Pieces, text: &[u8]) -> Result<u64, OutOfMemory>
    ensures keeps { OnOk result (Keeps pieces.old pieces.new) }
    ensures stands { IfOk result (λ piece. HasText pieces.new piece text.now) }
{
    let bytes = Vec::from_slice(alloc, text)?;
    let piece = pieces.bytes(bytes)?;
    Ok(piece)
}

// Two pieces with bytes between them.
pub(crate) fn joined(
    pieces: &mut Pieces,
    first: u64,
    bytes: Vec<u8>,
    second: u64,
) -> Result<u64, OutOfMemory>
    ensures keeps { OnOk result (Keeps pieces.old pieces.new) }
    ensures stands { IfOk result (λ piece. (s t : List ℕ) → HasText pieces.old first s → HasText pieces.old second t →
        HasText pieces.new piece (s ++ (bytes.items ++ t))) }
{
    let middle = pieces.bytes(bytes)?;
    let behind = pieces.joined(middle, second)?;
    let whole = pieces.joined(first, behind)?;
    Ok(whole)
}

// A value in front of a piece, with a comma between them where values stand in the piece already.
pub(crate) fn listed(
    alloc: Global,
    pieces: &mut Pieces,
    value: u64,
    already: u64,
    behind: u64,
) -> Result<u64, OutOfMemory>
    ensures keeps { OnOk result (Keeps pieces.old pieces.new) }
    ensures stands { IfOk result (λ piece. (s t : List ℕ) → HasText pieces.old value s → HasText pieces.old behind t →
        HasText pieces.new piece (s ++ (separator already ++ t))) }
{
    let mut between = Vec::new(alloc);
    write_separator(&mut between, already)?;
    let piece = joined(pieces, value, between, behind)?;
    Ok(piece)
}

// A piece with bytes in front of it and behind it.
pub(crate) fn wrapped(
    pieces: &mut Pieces,
    front: Vec<u8>,
    inner: u64,
    behind: Vec<u8>,
) -> Result<u64, OutOfMemory>
    ensures keeps { OnOk result (Keeps pieces.old pieces.new) }
    ensures stands { IfOk result (λ piece. (s : List ℕ) → HasText pieces.old inner s →
        HasText pieces.new piece (front.items ++ (s ++ behind.items))) }
{
    let end = pieces.bytes(behind)?;
    let ended = pieces.joined(inner, end)?;
    let begin = pieces.bytes(front)?;
    let whole = pieces.joined(begin, ended)?;
    Ok(whole)
}
