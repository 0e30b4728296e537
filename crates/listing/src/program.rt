// The cutting of programs.
ghost use Rattle.std.specs.Prelude.{◌≡◌, ◌∷◌, [], List, take, pos, IfOk};
ghost use Rattle.t_terms.specs.Tree.{Int, Mov, Plain};
ghost use Rattle.t_terms.specs.Spanned.{SBlock};
ghost use Rattle.t_terms.specs.Read.{body, instr, spanned, spanned_blocks};
ghost use Rattle.t_terms.specs.ReadProgram.{spanned_program};
ghost use Rattle.listing.specs.Cut.{cut, cut_block, cut_blocks};
ghost use Rattle.listing.specs.Steps.{IsCountAt, left_of};

use crate::cut_place::steps_before;
use idx_core::{OutOfMemory, Span};
use std::alloc::Global;
use t_terms::{Base, Block, End, Instr, TProgram, Value};

// Register 1 is set to 0.
fn way_out(alloc: Global) -> Instr
    ensures { instr result ≡ Mov 1 (Plain (Int (pos 0)) []) }
{
    Instr::Mov {
        rd: 1,
        v: Value::Plain {
            base: Base::Int(0),
            types: Vec::new(alloc),
        },
    }
}

// A block that halts behind so many of its instructions.
fn block_to(alloc: Global, block: Block, count: usize, place: Span) -> Result<Block, OutOfMemory>
    ensures { IfOk result (λ b.
        spanned b ≡ cut_block place (take count (body block.body.items)) (spanned block)) }
{
    let Block {
        name,
        owes,
        regs,
        body: steps,
        end: _,
        end_span,
    } = block;
    let mut body = steps;
    body.truncate(count);
    body.push((way_out(alloc), place))?;
    Ok(Block {
        name,
        owes,
        regs,
        body,
        end: End::Halt,
        end_span,
    })
}

// How many instructions of a block stay: none behind the place; where the place was not met before, those before it, or
// all of the block where it has not the place.
fn count_at(block: &Block, met: bool, place: Span) -> Option<usize>
    ensures { IsCountAt place met (spanned block.now) result }
{
    if met {
        return Some(0);
    }
    steps_before(block, place)
}

// What becomes of the next block, and whether the place was met with it, where it was met before or not.
fn next_block(
    alloc: Global,
    block: Block,
    met: bool,
    place: Span,
) -> Result<(Block, bool), OutOfMemory>
    ensures { IfOk result (λ r. (bs : List SBlock) →
        left_of place met (spanned block ∷ bs) ≡ spanned r.0 ∷ left_of place r.1 bs) }
{
    match count_at(&block, met, place) {
        Some(count) => {
            let out = block_to(alloc, block, count, place)?;
            Ok((out, true))
        }
        None => Ok((block, false)),
    }
}

// The blocks up to the place, and the way out of each behind it.
fn blocks_to(alloc: Global, blocks: Vec<Block>, place: Span) -> Result<Vec<Block>, OutOfMemory>
    ensures { IfOk result (λ bs. spanned_blocks bs.items ≡ cut_blocks place (spanned_blocks blocks.items)) }
{
    let mut made = Vec::with_capacity(alloc, blocks.len())?;
    let mut met = false;
    for block in blocks {
        let (out, now) = next_block(alloc, block, met, place)?;
        made.push(out)?;
        met = now;
    }
    Ok(made)
}

/// The program cut at a place: each block and each instruction before the first instruction or end that stands there is
/// as it was, and in its place, and at the start of each block behind it, register 1 is set to 0 and the program halts.
/// An error is want of memory.
pub fn cut(alloc: Global, program: TProgram, place: Span) -> Result<TProgram, OutOfMemory>
    ensures { IfOk result (λ q. spanned_program q ≡ cut place (spanned_program program)) }
{
    let TProgram { blocks, heap, .. } = program;
    let made = blocks_to(alloc, blocks, place)?;
    Ok(TProgram::new(made, heap))
}
