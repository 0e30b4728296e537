// The lines of a listing.
ghost use Rattle.std.specs.Prelude.{◌≡◌, ◌++◌, ◌+◌, [], ◌∷◌, OnOk, IfOk, length, codes};
ghost use Rattle.x_code.specs.Bytes.{bytes_of};
ghost use Rattle.x_laws.specs.Core.{bytes_all};
ghost use Rattle.x_laws.specs.Code.{instr_code};
ghost use Rattle.x_pass.specs.Homes.{home};
ghost use Rattle.x_pass.specs.Layout.{place_of, AreNear};
ghost use Rattle.x_pass.specs.Short.{HasShortOffset};
ghost use Rattle.x_listing.specs.Lines as spec;
ghost use Rattle.x_listing.specs.Lines.{page_text};
ghost use Rattle.x_listing.specs.Remarks.{note_at};
ghost use Rattle.x_listing.specs.Read.{notes_of};
ghost use Rattle.x_listing.specs.Text as text;
ghost use Rattle.w_terms.specs.Read as read;

use crate::instructions::write_instr;
use crate::note::{Note, name_at, remark_at};
use crate::numbers::{write_bytes, write_signs, write_wide};
use crate::words::{write_end, write_word};
use idx_core::{OutOfMemory, sum};
use w_terms::{WEnd, WInstr};
use x_code::encode;
use x_pass::{Labels, put_end, put_instr};
use x_terms::Instr;

// The address of an instruction.
fn write_address(page: &mut Vec<u8>, at: u64) -> Result<(), OutOfMemory>
    ensures { OnOk result (page.new.items ≡ page.old.items ++ (text.wide 8 32 (text.hex at) ++ codes ":\t")) }
{
    write_wide(page, at, 8, b' ')?;
    page.extend_from_slice(b":\t")?;
    Ok(())
}

// The bytes of an instruction, which are ten at most.
fn write_column(page: &mut Vec<u8>, bytes: &[u8]) -> Result<(), OutOfMemory>
    ensures { OnOk result (page.new.items ≡ page.old.items ++ (spec.bytes_column bytes.now ++ codes "\t")) }
{
    write_bytes(page, bytes)?;
    write_signs(page, 3 * 10usize.saturating_sub(bytes.len()), b' ')?;
    page.push(b'\t')?;
    Ok(())
}

// An instruction at an address. Gives the address behind it.
fn write_step(page: &mut Vec<u8>, at: u64, instr: Instr) -> Result<u64, OutOfMemory>
    ensures line { OnOk result (page.new.items ≡ page.old.items ++ spec.line_text (spec.Step at instr)) }
    ensures next { IfOk result (λ next. next ≡ at + length (bytes_of instr)) }
{
    let mut bytes = Vec::new(*page.allocator());
    encode(&mut bytes, instr)?;
    let next = sum(at, bytes.len() as u64)?;
    write_address(page, at)?;
    write_column(page, &bytes)?;
    write_instr(page, next, instr)?;
    page.push(b'\n')?;
    Ok(next)
}

// Instructions one behind the other, the first at an address. Gives the address behind them.
fn write_steps(page: &mut Vec<u8>, at: u64, instrs: &[Instr]) -> Result<u64, OutOfMemory>
    ensures lines { OnOk result (page.new.items ≡ page.old.items ++ page_text (spec.step_lines at instrs.now)) }
    ensures next { IfOk result (λ next. next ≡ at + length (bytes_all instrs.now)) }
{
    let mut next = at;
    for instr in instrs {
        next = write_step(page, next, *instr)?;
    }
    Ok(next)
}

// A remark, if it says anything.
pub(crate) fn write_remark(
    page: &mut Vec<u8>,
    notes: &[Note],
    l: u64,
    k: usize,
) -> Result<(), OutOfMemory>
    ensures { OnOk result (page.new.items
        ≡ page.old.items ++ page_text (spec.remark_at (note_at (notes_of notes.now) l).before k)) }
{
    let remark = remark_at(notes, l, k);
    if remark.is_empty() {
        return Ok(());
    }
    page.extend_from_slice(b"; ")?;
    page.extend_from_slice(remark)?;
    page.push(b'\n')?;
    Ok(())
}

// The head of a block.
pub(crate) fn write_title(page: &mut Vec<u8>, at: u64, name: &[u8]) -> Result<(), OutOfMemory>
    ensures { OnOk result (page.new.items ≡ page.old.items ++ spec.line_text (spec.Title at name.now)) }
{
    page.push(b'\n')?;
    write_wide(page, at, 16, b'0')?;
    page.extend_from_slice(b" <")?;
    page.extend_from_slice(name)?;
    page.extend_from_slice(b">:\n")?;
    Ok(())
}

// An instruction of word code.
fn write_word_line(page: &mut Vec<u8>, notes: &[Note], instr: &WInstr) -> Result<(), OutOfMemory>
    ensures { OnOk result
        (page.new.items ≡ page.old.items ++ spec.line_text (spec.word_line (notes_of notes.now) (read.instr instr.now))) }
{
    page.extend_from_slice(b"  ; ")?;
    write_word(page, notes, instr)?;
    page.push(b'\n')?;
    Ok(())
}

fn write_end_line(page: &mut Vec<u8>, notes: &[Note], end: &WEnd) -> Result<(), OutOfMemory>
    ensures { OnOk result
        (page.new.items ≡ page.old.items ++ spec.line_text (spec.last_line (notes_of notes.now) (read.end_of end.now))) }
{
    page.extend_from_slice(b"  ; ")?;
    write_end(page, notes, end)?;
    page.push(b'\n')?;
    Ok(())
}

// An instruction of word code and its code, from an address on. Gives the address behind it. No code that has room goes
// so far that there is an error for that.
pub(crate) fn write_instr_lines(
    page: &mut Vec<u8>,
    labels: &Labels,
    notes: &[Note],
    at: u64,
    instr: &WInstr,
) -> Result<u64, OutOfMemory>
    requires near { AreNear labels.now }
    requires short { HasShortOffset (read.instr instr.now) }
    ensures lines { OnOk result (page.new.items
        ≡ page.old.items
        ++ page_text (spec.instr_lines (place_of labels.now) (notes_of notes.now) at (read.instr instr.now))) }
    ensures next { IfOk result
        (λ next. next ≡ at + length (bytes_all (instr_code home (place_of labels.now) at (read.instr instr.now)))) }
{
    if at > 0x1000_0000 {
        return Err(OutOfMemory);
    }
    let mut code = Vec::new(*page.allocator());
    put_instr(&mut code, labels, at, instr)?;
    write_word_line(page, notes, instr)?;
    write_steps(page, at, &code)
}

// The end of a block and its code, from an address on.
pub(crate) fn write_last_lines(
    page: &mut Vec<u8>,
    labels: &Labels,
    notes: &[Note],
    at: u64,
    end: &WEnd,
) -> Result<(), OutOfMemory>
    requires near { AreNear labels.now }
    ensures { OnOk result (page.new.items
        ≡ page.old.items
        ++ page_text (spec.last_lines (place_of labels.now) (notes_of notes.now) at (read.end_of end.now))) }
{
    if at > 0x1000_0000 {
        return Err(OutOfMemory);
    }
    let mut code = Vec::new(*page.allocator());
    put_end(&mut code, labels, at, end)?;
    write_end_line(page, notes, end)?;
    write_steps(page, at, &code)?;
    Ok(())
}
