// The listing of a program that is refused, up to the place of its first fault.
ghost use Rattle.std.specs.Prelude.{◌≡◌, Some, slice_get, take, IfOk};
ghost use Rattle.t_terms.specs.declared.fault.TCode as codes;
ghost use Rattle.t_terms.specs.Spanned.{plain};
ghost use Rattle.t_terms.specs.Read.{spanned};
ghost use Rattle.t_terms.specs.ReadProgram.{program as plain_of, spanned_program};
ghost use Rattle.t_rules.specs.Faults.{ProgramFault};
ghost use Rattle.t_check.specs.Checked.{checked_program};
ghost use Rattle.listing.specs.Begun.{AreBlocksTo, IsListingTo};
ghost use Rattle.listing.specs.Writing.{Adds, IsBlockTo, IsLister, OfTheSame, program_of, text_of};

use crate::lister::Lister;
use crate::{cut, cut_is_accepted, is_before_blocks, known_before, steps_before};
use idx_core::{OutOfMemory, Span};
use std::alloc::Global;
use t_check::{Checked, seal};
use t_terms::{Block, Instr, TProgram};

// So many of a block's instructions.
fn first_steps(steps: &[(Instr, Span)], count: usize) -> &[(Instr, Span)]
    ensures { result.now ≡ take count steps.now }
{
    let few = count.min(steps.len());
    &steps[..few]
}

impl<'a> Lister<'a> {
    // The rows of a block up to the place, where it has it, and whether it has.
    fn write_block_to(
        &mut self,
        page: &mut Vec<u8>,
        number: u64,
        block: &Block,
        place: Span,
    ) -> Result<bool, OutOfMemory>
        requires lister { IsLister self.old }
        requires there { slice_get (program_of self.old).blocks number ≡ Some (plain (spanned block.now)) }
        ensures lister { IsLister self.new }
        ensures same { OfTheSame self.old self.new }
        ensures rows { IfOk result (λ met. Adds (IsBlockTo (text_of self.old) (program_of self.old) place number
            (spanned block.now) met) page.old.items page.new.items) }
    {
        let steps = block.body.as_slice();
        match steps_before(block, place) {
            Some(count) => {
                self.write_begun(page, number, block, first_steps(steps, count))?;
                Ok(true)
            }
            None => {
                self.write_block(page, number, block)?;
                Ok(false)
            }
        }
    }
}

// The rows of the blocks of a program up to a place.
fn blocks_to(
    alloc: Global,
    text: &[u8],
    program: &Checked,
    place: Span,
) -> Result<Vec<u8>, OutOfMemory>
    ensures { IfOk result (λ page. AreBlocksTo text.now (plain_of (checked_program program.now)) place 0
        (spanned_program (checked_program program.now)).blocks page.items) }
{
    let mut page = Vec::new(alloc);
    let mut lister = Lister::first(alloc, text, program)?;
    for (i, block) in program.program().blocks.iter().enumerate() {
        let met = lister.write_block_to(&mut page, i as u64, block, place)?;
        if met {
            return Ok(page);
        }
    }
    Ok(page)
}

/// The listing of a program of an assembly text that the typing rules refuse, up to the place of its first fault (own
/// choice): the rows of each block that is accepted before it, and of the block with the fault the label, what is known
/// at its start, the instructions before the fault, each with the register that it sets, and what is known at the
/// fault, all in the form of `listing_of`. No rows where the fault is the first block's label or one of the data, which
/// are looked at before the blocks. An error is want of memory.
pub fn listing_to(
    alloc: Global,
    text: &[u8],
    program: TProgram,
    place: Span,
) -> Result<Vec<u8>, OutOfMemory>
    requires { (code : codes.TCode) × ProgramFault (spanned_program program) code place }
    ensures { IfOk result (λ page. IsListingTo text.now (spanned_program program) place page.items) }
{
    cut_is_accepted();
    known_before();
    if is_before_blocks(&program, place) {
        return Ok(Vec::new(alloc));
    }
    let shorter = cut(alloc, program, place)?;
    let checked = seal(shorter);
    let page = blocks_to(alloc, text, &checked, place)?;
    Ok(page)
}
