// Word code as text.
ghost use Rattle.std.specs.Prelude.{◌≡◌, ◌++◌, OnOk};
ghost use Rattle.x_listing.specs.Words as spec;
ghost use Rattle.x_listing.specs.Remarks.{name_at};
ghost use Rattle.x_listing.specs.Read.{notes_of};
ghost use Rattle.w_terms.specs.Read as read;

use crate::note::{Note, name_at};
use crate::numbers::write_number;
use idx_core::OutOfMemory;
use page_core::write_natural;
use w_terms::{WCond, WEnd, WInstr, WOp, WOperand};

fn write_register(page: &mut Vec<u8>, q: u64) -> Result<(), OutOfMemory>
    ensures { OnOk result (page.new.items ≡ page.old.items ++ spec.register q) }
{
    page.push(b'w')?;
    write_natural(page, q)
}

fn write_operand(page: &mut Vec<u8>, v: WOperand) -> Result<(), OutOfMemory>
    ensures { OnOk result (page.new.items ≡ page.old.items ++ spec.operand v) }
{
    match v {
        WOperand::Reg(q) => write_register(page, q),
        WOperand::Num(n) => write_number(page, n),
    }
}

fn op_sign(op: WOp) -> &'static [u8]
    ensures { result.now ≡ spec.op op }
{
    match op {
        WOp::Add => b" + ",
        WOp::Sub => b" - ",
        WOp::Mul => b" * ",
        WOp::And => b" & ",
        WOp::Or => b" | ",
        WOp::Shl => b" << ",
        WOp::Shr => b" >> ",
    }
}

fn cond_sign(test: WCond) -> &'static [u8]
    ensures { result.now ≡ spec.condition test }
{
    match test {
        WCond::Equal => b" == ",
        WCond::Differ => b" != ",
        WCond::Below => b" < ",
        WCond::AtLeast => b" >= ",
    }
}

// A word of the memory.
fn write_cell(page: &mut Vec<u8>, q: u64, bytes: u64) -> Result<(), OutOfMemory>
    ensures { OnOk result (page.new.items ≡ page.old.items ++ spec.cell q bytes) }
{
    page.push(b'[')?;
    write_register(page, q)?;
    page.extend_from_slice(b" + ")?;
    write_number(page, bytes)?;
    page.push(b']')?;
    Ok(())
}

// What goes to a register.
fn write_target(page: &mut Vec<u8>, q: u64) -> Result<(), OutOfMemory>
    ensures { OnOk result (page.new.items ≡ page.old.items ++ spec.target q) }
{
    write_register(page, q)?;
    page.extend_from_slice(b" = ")?;
    Ok(())
}

// Two words and what stands between them.
fn write_both(page: &mut Vec<u8>, q: u64, sign: &[u8], v: WOperand) -> Result<(), OutOfMemory>
    ensures { OnOk result (page.new.items ≡ page.old.items ++ spec.both q sign.now v) }
{
    write_register(page, q)?;
    page.extend_from_slice(sign)?;
    write_operand(page, v)
}

// The name of the block with this label.
fn write_name(page: &mut Vec<u8>, notes: &[Note], l: u64) -> Result<(), OutOfMemory>
    ensures { OnOk result (page.new.items ≡ page.old.items ++ name_at (notes_of notes.now) l) }
{
    page.extend_from_slice(name_at(notes, l))?;
    Ok(())
}

// A branch, up to the name of its label.
fn write_branch(page: &mut Vec<u8>, test: WCond, rs: u64, v: WOperand) -> Result<(), OutOfMemory>
    ensures { OnOk result (page.new.items ≡ page.old.items ++ spec.branch test rs v) }
{
    page.extend_from_slice(b"if ")?;
    write_both(page, rs, cond_sign(test), v)?;
    page.extend_from_slice(b" goto ")?;
    Ok(())
}

fn write_write(page: &mut Vec<u8>, to: u64, ra: u64, rn: u64) -> Result<(), OutOfMemory>
    ensures { OnOk result (page.new.items ≡ page.old.items ++ spec.written to ra rn) }
{
    page.extend_from_slice(b"write ")?;
    write_number(page, to)?;
    page.extend_from_slice(b", ")?;
    write_register(page, ra)?;
    page.extend_from_slice(b", ")?;
    write_register(page, rn)
}

// Puts an instruction, where blocks have these notes.
pub(crate) fn write_word(
    page: &mut Vec<u8>,
    notes: &[Note],
    instr: &WInstr,
) -> Result<(), OutOfMemory>
    ensures { OnOk result
        (page.new.items ≡ page.old.items ++ spec.instr (name_at (notes_of notes.now)) (read.instr instr.now)) }
{
    match *instr {
        WInstr::Const { rd, number } => {
            write_target(page, rd)?;
            write_number(page, number)
        }
        WInstr::Move { rd, rs } => {
            write_target(page, rd)?;
            write_register(page, rs)
        }
        WInstr::Place { rd, label } => {
            write_target(page, rd)?;
            write_name(page, notes, label)
        }
        WInstr::Arith { op, rd, rs, v } => {
            write_target(page, rd)?;
            write_both(page, rs, op_sign(op), v)
        }
        WInstr::Load { rd, ra, bytes } => {
            write_target(page, rd)?;
            write_cell(page, ra, bytes)
        }
        WInstr::Store { ra, bytes, rs } => {
            write_cell(page, ra, bytes)?;
            page.extend_from_slice(b" = ")?;
            write_register(page, rs)
        }
        WInstr::Branch { cond, rs, v, label } => {
            write_branch(page, cond, rs, v)?;
            write_name(page, notes, label)
        }
        WInstr::Write { to, ra, rn } => write_write(page, to, ra, rn),
    }
}

// Puts the end of a block.
pub(crate) fn write_end(page: &mut Vec<u8>, notes: &[Note], end: &WEnd) -> Result<(), OutOfMemory>
    ensures { OnOk result (page.new.items ≡ page.old.items ++ spec.last (name_at (notes_of notes.now)) (read.end_of end.now)) }
{
    match *end {
        WEnd::Jump(l) => {
            page.extend_from_slice(b"goto ")?;
            write_name(page, notes, l)
        }
        WEnd::Goto(q) => {
            page.extend_from_slice(b"goto ")?;
            write_register(page, q)
        }
        WEnd::Exit(status) => {
            page.extend_from_slice(b"exit ")?;
            write_number(page, status)
        }
    }
}
