// The listing of a program.
ghost use Rattle.std.specs.Prelude.{◌≡◌, ◌++◌, ◌+◌, ◌*◌, [], ◌∷◌, OnOk, IfOk, length, codes, map};
ghost use Rattle.x_laws.specs.Layout.{program_code};
ghost use Rattle.x_file.specs.File.{code_address};
ghost use Rattle.x_pass.specs.Homes.{home};
ghost use Rattle.x_pass.specs.Layout.{place_of, AreNear, AreAllShort};
ghost use Rattle.x_pass.specs.Short.{AreShort};
ghost use Rattle.x_listing.specs.Lines as spec;
ghost use Rattle.x_listing.specs.Lines.{page_text, program_lines, ShowsCode};
ghost use Rattle.x_listing.specs.Remarks.{note_at};
ghost use Rattle.x_listing.specs.Read.{notes_of};
ghost use Rattle.w_terms.specs.Read as read;

use crate::lines::{write_instr_lines, write_last_lines, write_remark, write_title};
use crate::note::{Note, name_at};
use crate::numbers::write_number;
use idx_core::{OutOfMemory, sum};
use std::alloc::Global;
use w_terms::{WBlock, WProgram};
use x_pass::{Labels, are_fine, labels_of, place_at};

// The instructions of a block. Gives the address behind them.
fn write_body(
    page: &mut Vec<u8>,
    labels: &Labels,
    notes: &[Note],
    l: u64,
    block: &WBlock,
) -> Result<(), OutOfMemory>
    requires near { AreNear labels.now }
    requires short { AreShort block.now.body.items }
    ensures { OnOk result (page.new.items
        ≡ page.old.items
        ++ page_text (spec.seq_lines (place_of labels.now) (notes_of notes.now)
        (note_at (notes_of notes.now) l).before 0 (place_of labels.now l) (read.block block.now))) }
{
    let body = block.body.as_slice();
    let mut at = place_at(labels, l);
    for (k, instr) in body.iter().enumerate() {
        write_remark(page, notes, l, k)?;
        at = write_instr_lines(page, labels, notes, at, instr)?;
    }
    write_remark(page, notes, l, body.len())?;
    write_last_lines(page, labels, notes, at, &block.end)?;
    Ok(())
}

// A block.
fn write_block(
    page: &mut Vec<u8>,
    labels: &Labels,
    notes: &[Note],
    l: u64,
    block: &WBlock,
) -> Result<(), OutOfMemory>
    requires near { AreNear labels.now }
    requires short { AreShort block.now.body.items }
    ensures { OnOk result (page.new.items
        ≡ page.old.items
        ++ page_text (spec.block_lines (place_of labels.now) (notes_of notes.now) l (read.block block.now))) }
{
    write_title(page, place_at(labels, l), name_at(notes, l))?;
    write_body(page, labels, notes, l, block)
}

// All blocks.
fn write_blocks(
    page: &mut Vec<u8>,
    labels: &Labels,
    notes: &[Note],
    blocks: &[WBlock],
) -> Result<(), OutOfMemory>
    requires near { AreNear labels.now }
    requires short { AreAllShort blocks.now }
    ensures { OnOk result (page.new.items
        ≡ page.old.items
        ++ page_text (spec.blocks_lines (place_of labels.now) (notes_of notes.now) 0 (map read.block blocks.now))) }
{
    for (l, block) in blocks.iter().enumerate() {
        write_block(page, labels, notes, l as u64, block)?;
    }
    Ok(())
}

// A part of memory.
fn write_part(page: &mut Vec<u8>, name: &[u8], start: u64, end: u64) -> Result<(), OutOfMemory>
    ensures { OnOk result (page.new.items ≡ page.old.items ++ spec.line_text (spec.part name.now start end)) }
{
    page.extend_from_slice(b"; ")?;
    page.extend_from_slice(name)?;
    write_number(page, start)?;
    page.extend_from_slice(b" to ")?;
    write_number(page, end)?;
    page.push(b'\n')?;
    Ok(())
}

// The parts of the file of a program: up to where the code, the words of registers and the memory go.
fn write_head(page: &mut Vec<u8>, code: u64, base: u64, memory: u64) -> Result<(), OutOfMemory>
    ensures { OnOk result (page.new.items ≡ page.old.items ++ page_text (spec.parts code base memory)) }
{
    write_part(page, b"code: ", 0x40_0100, code)?;
    write_part(page, b"registers: ", 0x1000_0000, base)?;
    write_part(page, b"memory: ", base, memory)?;
    Ok(())
}

// Where a memory of so many words ends.
fn memory_end(base: u64, size: u64) -> Result<u64, OutOfMemory>
    ensures { IfOk result (λ end. end ≡ base + 8 * size) }
{
    match size.checked_mul(8) {
        Some(length) => sum(base, length),
        None => Err(OutOfMemory),
    }
}

/// The listing of a program of word code of which so many registers have homes, and of whose blocks these notes are. The
/// program has room in a file, or else the answer may be want of memory too.
pub fn listing_of(
    alloc: Global,
    program: &WProgram,
    registers: u64,
    notes: &[Note],
) -> Result<Vec<u8>, OutOfMemory>
    ensures page { IfOk result
        (λ page. page.items ≡ page_text (program_lines (notes_of notes.now) (read.program program.now))) }
    ensures shows { IfOk result
        (λ _. ShowsCode code_address (program_lines (notes_of notes.now) (read.program program.now))
        (program_code home code_address (read.program program.now).blocks)) }
{
    let blocks = program.blocks.as_slice();
    if !are_fine(registers, blocks) {
        return Err(OutOfMemory);
    }
    let labels = labels_of(alloc, blocks, 0x40_0100)?;
    if labels.end > 0x1000_0000 {
        return Err(OutOfMemory);
    }
    let mut page = Vec::new(alloc);
    let memory = memory_end(program.base, program.size)?;
    write_head(&mut page, labels.end, program.base, memory)?;
    write_blocks(&mut page, &labels, notes, blocks)?;
    Ok(page)
}
