// The making of a listing.
ghost use Rattle.std.specs.Prelude.{◌≡◌, ◌≤◌, ◌++◌, Some, slice_get, length, IfOk, OnOk};
ghost use Rattle.t_terms.specs.Tree.{TSeq};
ghost use Rattle.t_terms.specs.Spanned.{plain};
ghost use Rattle.t_terms.specs.Read.{body, instr, spanned};
ghost use Rattle.t_terms.specs.ReadProgram.{program as plain_of, spanned_program};
ghost use Rattle.t_rules.specs.Known.{code_at};
ghost use Rattle.t_check.specs.Checked.{checked_program};
ghost use Rattle.listing.specs.Listing.{AreSteps, IsBegun, IsBlock, IsFileRow, IsLastRow, IsListing, IsSetRow};
ghost use Rattle.listing.specs.Listing.{set_by, text_row};
ghost use Rattle.listing.specs.Writing.{Adds, HasPlaces, IsLister, OfTheSame, program_of, text_of};

use crate::place::Place;
use crate::rows::{write_bytes, write_file, write_found, write_place};
use idx_core::{OutOfMemory, Span};
use page_core::write_natural;
use std::alloc::Global;
use t_check::{Checked, Walk};
use t_terms::{Block, Instr};

// Where the making of a listing stands, in the text and in its program.
#[derive(Drop)]
pub(crate) struct Lister<'a> {
    pub(crate) alloc: Global,
    pub(crate) place: Place<'a>,
    pub(crate) walk: Walk<'a>,
}

// The register that an instruction sets.
fn set_by(i: &Instr) -> Option<u64>
    ensures { result ≡ set_by (instr i.now) }
{
    match i {
        Instr::Arith { rd, .. } => Some(*rd),
        Instr::Bnz { .. } => None,
        Instr::Ld { rd, .. } => Some(*rd),
        Instr::Malloc { rd, .. } => Some(*rd),
        Instr::Mov { rd, .. } => Some(*rd),
        Instr::St { rd, .. } => Some(*rd),
        Instr::Unpack { rd, .. } => Some(*rd),
    }
}

impl<'a> Lister<'a> {
    // The start of a text and of its program.
    pub(crate) fn first(
        alloc: Global,
        text: &'a [u8],
        program: &'a Checked,
    ) -> Result<Lister<'a>, OutOfMemory>
        ensures lister { IfOk result IsLister }
        ensures text { IfOk result (λ l. text_of l ≡ text.now) }
        ensures program { IfOk result (λ l. program_of l ≡ plain_of (checked_program program.entry.now)) }
    {
        let walk = Walk::new(alloc, program)?;
        let place = Place::first(text);
        Ok(Lister { alloc, place, walk })
    }

    // The row of a place in the text.
    fn write_text(
        &mut self,
        page: &mut Vec<u8>,
        place: Span,
        behind: &[u8],
    ) -> Result<(), OutOfMemory>
        requires { IsLister self.old }
        ensures lister { IsLister self.new }
        ensures same { OfTheSame self.old self.new }
        ensures row { OnOk result (page.new.items ≡ page.old.items ++ text_row (text_of self.old) place behind.now) }
    {
        let line = self.place.line_of(place.start);
        write_natural(page, line)?;
        page.extend_from_slice(b" | ")?;
        write_bytes(page, self.place.text, place)?;
        page.extend_from_slice(behind)?;
        Ok(())
    }

    // The row of all registers.
    fn write_known(&mut self, page: &mut Vec<u8>, block: u64, index: u64) -> Result<(), OutOfMemory>
        requires lister { IsLister self.old }
        requires there { (c : TSeq) × (code_at (program_of self.old) block index ≡ Some c) }
        ensures lister { IsLister self.new }
        ensures same { OfTheSame self.old self.new }
        ensures row { OnOk result (Adds (IsFileRow (program_of self.old) block index) page.old.items page.new.items) }
    {
        let (names, known) = self.walk.to(block, index)?;
        page.extend_from_slice(b"    ")?;
        write_place(page, block, index)?;
        write_file(self.alloc, page, names, &known.regs)
    }

    // The row of a register that was set.
    fn write_set(
        &mut self,
        page: &mut Vec<u8>,
        block: u64,
        index: u64,
        set: Option<u64>,
    ) -> Result<(), OutOfMemory>
        requires lister { IsLister self.old }
        requires there { (c : TSeq) × (code_at (program_of self.old) block index ≡ Some c) }
        ensures lister { IsLister self.new }
        ensures same { OfTheSame self.old self.new }
        ensures row { OnOk result (Adds (IsSetRow (program_of self.old) block index set)
            page.old.items page.new.items) }
    {
        let Some(r) = set else {
            return Ok(());
        };
        let (names, found) = self.walk.register(block, index, r)?;
        write_found(self.alloc, page, names, r, &found)
    }

    // The rows of a block's instructions.
    fn write_steps(
        &mut self,
        page: &mut Vec<u8>,
        block: u64,
        steps: &[(Instr, Span)],
    ) -> Result<(), OutOfMemory>
        requires lister { IsLister self.old }
        requires there { HasPlaces (program_of self.old) block (length steps.now) }
        ensures lister { IsLister self.new }
        ensures same { OfTheSame self.old self.new }
        ensures rows { OnOk result (Adds (AreSteps (text_of self.old) (program_of self.old) block 0 (body steps.now))
            page.old.items page.new.items) }
    {
        for (i, step) in steps.iter().enumerate() {
            self.write_text(page, step.1, b"\n")?;
            self.write_set(page, block, i as u64 + 1, set_by(&step.0))?;
        }
        Ok(())
    }

    // The row of all registers before the end of a block, where so many instructions stand before it.
    fn write_last(
        &mut self,
        page: &mut Vec<u8>,
        block: u64,
        steps: &[(Instr, Span)],
    ) -> Result<(), OutOfMemory>
        requires lister { IsLister self.old }
        requires there { HasPlaces (program_of self.old) block (length steps.now) }
        ensures lister { IsLister self.new }
        ensures same { OfTheSame self.old self.new }
        ensures row { OnOk result (Adds (IsLastRow (program_of self.old) block (body steps.now))
            page.old.items page.new.items) }
    {
        if steps.is_empty() {
            return Ok(());
        }
        self.write_known(page, block, steps.len() as u64)?;
        Ok(())
    }

    // The rows of a block up to a place in it, before which it has these instructions.
    pub(crate) fn write_begun(
        &mut self,
        page: &mut Vec<u8>,
        number: u64,
        block: &Block,
        before: &[(Instr, Span)],
    ) -> Result<(), OutOfMemory>
        requires lister { IsLister self.old }
        requires there { slice_get (program_of self.old).blocks number ≡ Some (plain (spanned block.now)) }
        requires few { length before.now ≤ length block.now.body.items }
        ensures lister { IsLister self.new }
        ensures same { OfTheSame self.old self.new }
        ensures rows { OnOk result (Adds (IsBegun (text_of self.old) (program_of self.old) number (spanned block.now)
            (body before.now)) page.old.items page.new.items) }
    {
        self.write_text(page, block.name, b":\n")?;
        self.write_known(page, number, 0)?;
        self.write_steps(page, number, before)?;
        self.write_last(page, number, before)?;
        Ok(())
    }

    // The rows of a block.
    pub(crate) fn write_block(
        &mut self,
        page: &mut Vec<u8>,
        number: u64,
        block: &Block,
    ) -> Result<(), OutOfMemory>
        requires lister { IsLister self.old }
        requires there { slice_get (program_of self.old).blocks number ≡ Some (plain (spanned block.now)) }
        ensures lister { IsLister self.new }
        ensures same { OfTheSame self.old self.new }
        ensures rows { OnOk result (Adds (IsBlock (text_of self.old) (program_of self.old) number (spanned block.now))
            page.old.items page.new.items) }
    {
        let steps = block.body.as_slice();
        self.write_begun(page, number, block, steps)?;
        self.write_text(page, block.end_span, b"\n")?;
        Ok(())
    }
}

/// The listing of the program of an assembly text (own choice), block by block: a row with the label; a row with the
/// place, as `trace` names it, and all registers that are known there, each with its type; a row for each instruction,
/// and behind it one with the register that it sets; a row with all registers that are known before the end; and the
/// end. A row of the text begins with the number of the line, from 1 on. Of a type at most 1000 bytes are shown. An
/// error is want of memory.
pub fn listing_of(alloc: Global, text: &[u8], program: &Checked) -> Result<Vec<u8>, OutOfMemory>
    ensures { IfOk result (λ page.
        IsListing text.now (spanned_program (checked_program program.now)) page.items) }
{
    let mut page = Vec::new(alloc);
    let mut lister = Lister::first(alloc, text, program)?;
    for (i, block) in program.program().blocks.iter().enumerate() {
        lister.write_block(&mut page, i as u64, block)?;
    }
    Ok(page)
}
