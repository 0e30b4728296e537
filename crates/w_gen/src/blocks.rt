// The translation of all blocks.
ghost use Rattle.std.specs.Prelude.{◌≡◌, ℕ, ◌+◌, ◌<◌, List, [], ◌∷◌, ◌++◌, length, map, IfOk, OnOk, slice_index};
ghost use Rattle.t_terms.specs.Read.{blocks_of as trees_of};
ghost use Rattle.t_rules.specs.Erase.{erase_block};
ghost use Rattle.w_terms.specs.Read.{block as word_block};
ghost use Rattle.w_laws.specs.Translate.{Code, codes_of, blocks_of};
ghost use Rattle.w_gen.specs.Emit.{pieces as pieces_of};

use crate::instructions::block;
use crate::values::label;
use idx_core::OutOfMemory;
use std::alloc::Global;
use t_terms::Block;
use w_terms::WBlock;

// The blocks of a program, and those that are made beside them.
#[derive(Drop)]
struct Made {
    firsts: Vec<WBlock>,
    rest: Vec<WBlock>,
}

// The blocks of word code, behind those of the runtime, where `places` has the addresses of the data tuples.
pub(crate) fn all_blocks(
    alloc: Global,
    blocks: &[Block],
    places: &[u64],
    runtime: Vec<WBlock>,
) -> Result<Vec<WBlock>, OutOfMemory>
    ensures { IfOk result (λ v. map word_block v.items
        ≡ blocks_of (slice_index places.now) (map word_block runtime.items) (map erase_block (trees_of blocks.now))) }
{
    let from = label(blocks.len() as u64)?;
    let Made { firsts, rest } = all_pieces(alloc, blocks, from, places)?;
    put_behind(runtime, firsts, rest)
}

// One list behind the other.
fn put_behind(
    runtime: Vec<WBlock>,
    firsts: Vec<WBlock>,
    rest: Vec<WBlock>,
) -> Result<Vec<WBlock>, OutOfMemory>
    ensures { IfOk result (λ v. v.items ≡ (runtime.items ++ firsts.items) ++ rest.items) }
{
    let mut all = runtime;
    let mut firsts = firsts;
    let mut rest = rest;
    all.append(&mut firsts)?;
    all.append(&mut rest)?;
    Ok(all)
}

// Of the blocks that are made beside those of the program the first has the label `from`.
fn all_pieces(
    alloc: Global,
    blocks: &[Block],
    from: u64,
    places: &[u64],
) -> Result<Made, OutOfMemory>
    ensures firsts { IfOk result (λ v. map word_block v.firsts.items
        ≡ (codes_of (slice_index places.now) from (map erase_block (trees_of blocks.now))).firsts) }
    ensures rest { IfOk result (λ v. map word_block v.rest.items
        ≡ (codes_of (slice_index places.now) from (map erase_block (trees_of blocks.now))).rest) }
{
    let mut firsts = Vec::new(alloc);
    let mut rest = Vec::new(alloc);
    for one in blocks {
        let next = behind(from, &rest)?;
        let pieces = block(alloc, one, next, places)?;
        share(pieces, &mut firsts, &mut rest)?;
    }
    Ok(Made { firsts, rest })
}

// The label of the next block that is made.
fn behind(from: u64, rest: &Vec<WBlock>) -> Result<u64, OutOfMemory>
    ensures { IfOk result (λ n. n ≡ from + length rest.now.items) }
{
    let done = rest.len() as u64;
    match from.checked_add(done) {
        Some(n) => Ok(n),
        None => Err(OutOfMemory),
    }
}

// Puts the first piece to the program's blocks, and the others to the rest.
fn share(
    pieces: Vec<WBlock>,
    firsts: &mut Vec<WBlock>,
    rest: &mut Vec<WBlock>,
) -> Result<(), OutOfMemory>
    requires { 0 < length pieces.items }
    ensures firsts { OnOk result ((c : Code) → map word_block pieces.items ≡ pieces_of c →
        map word_block firsts.new.items ≡ map word_block firsts.old.items ++ c.seq ∷ []) }
    ensures rest { OnOk result ((c : Code) → map word_block pieces.items ≡ pieces_of c →
        map word_block rest.new.items ≡ map word_block rest.old.items ++ c.more) }
{
    let mut pieces = pieces;
    let first = pieces.remove(0);
    firsts.push(first)?;
    rest.append(&mut pieces)?;
    Ok(())
}
