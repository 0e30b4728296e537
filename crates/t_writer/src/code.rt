// Instructions, and the ends of blocks.
ghost use Rattle.std.specs.Prelude.{◌≡◌, ◌++◌, ◌∷◌, [], ℕ, OnOk};
ghost use Rattle.t_terms.specs.Read.{instr as instr_of, end_of};
ghost use Rattle.t_terms.specs.Whole.{WellFormedInstr, WellFormedEnd, WellFormedValue};
ghost use Rattle.t_terms.specs.Read.{value as value_of};
ghost use Rattle.t_writer.specs.Lexeme.{Register, bytes, render};
ghost use Rattle.t_writer.specs.Lexeme.{comma};
ghost use Rattle.t_writer.specs.Written.{space, op_written, place_written, unpacked_written, value_written};
ghost use Rattle.t_writer.specs.Written.{instr_written, end_written};

use crate::names::write_name;
use crate::number::write_natural;
use crate::types::write_list;
use crate::values::write_value;
use idx_core::{Op, OutOfMemory};
use t_terms::{End, Instr, Value};

fn write_op(text: &mut Vec<u8>, op: Op) -> Result<(), OutOfMemory>
    ensures { OnOk result (text.new.items ≡ text.old.items ++ render (op_written op ∷ (space ∷ []))) }
{
    match op {
        Op::Add => text.extend_from_slice(b"add ")?,
        Op::Sub => text.extend_from_slice(b"sub ")?,
        Op::Mul => text.extend_from_slice(b"mul ")?,
    }
    Ok(())
}

fn write_register(text: &mut Vec<u8>, r: u64) -> Result<(), OutOfMemory>
    ensures { OnOk result (text.new.items ≡ text.old.items ++ bytes (Register r)) }
{
    write_name(text, b'r', r)
}

// A register and a comma.
fn write_target(text: &mut Vec<u8>, r: u64) -> Result<(), OutOfMemory>
    ensures { OnOk result (text.new.items ≡ text.old.items ++ render (Register r ∷ (comma ∷ (space ∷ [])))) }
{
    write_register(text, r)?;
    text.extend_from_slice(b", ")?;
    Ok(())
}

// A register and a field.
fn write_place(text: &mut Vec<u8>, r: u64, field: u64) -> Result<(), OutOfMemory>
    ensures { OnOk result (text.new.items ≡ text.old.items ++ render (place_written r field)) }
{
    write_register(text, r)?;
    text.push(b'[')?;
    write_natural(text, field)?;
    text.push(b']')?;
    Ok(())
}

// A register, a comma and a value.
fn write_operands(text: &mut Vec<u8>, r: u64, v: &Value, depth: u64) -> Result<(), OutOfMemory>
    requires { (blocks heap : ℕ) × WellFormedValue blocks heap depth (value_of v.now) }
    ensures { OnOk result (text.new.items ≡
        text.old.items ++ render (Register r ∷ (comma ∷ (space ∷ value_written depth (value_of v.now))))) }
{
    write_target(text, r)?;
    write_value(text, v, depth)
}

// The name that an unpack binds and its register, in brackets, and a comma.
fn write_unpacked(text: &mut Vec<u8>, rd: u64, depth: u64) -> Result<(), OutOfMemory>
    ensures { OnOk result (text.new.items ≡ text.old.items ++ render (unpacked_written depth rd)) }
{
    text.extend_from_slice(b"unpack[")?;
    write_name(text, b'T', depth)?;
    text.extend_from_slice(b", ")?;
    write_register(text, rd)?;
    text.extend_from_slice(b"], ")?;
    Ok(())
}

// An instruction inside `depth` type names.
pub(crate) fn write_instr(text: &mut Vec<u8>, instr: &Instr, depth: u64) -> Result<(), OutOfMemory>
    requires { (blocks heap : ℕ) × WellFormedInstr blocks heap depth (instr_of instr.now) }
    ensures { OnOk result (text.new.items ≡
        text.old.items ++ render (instr_written depth (instr_of instr.now))) }
{
    match instr {
        Instr::Arith { op, rd, rs, v } => {
            write_op(text, *op)?;
            write_target(text, *rd)?;
            write_operands(text, *rs, v, depth)?;
        }
        Instr::Bnz { r, v } => {
            text.extend_from_slice(b"bnz ")?;
            write_operands(text, *r, v, depth)?;
        }
        Instr::Ld { rd, rs, field } => {
            text.extend_from_slice(b"ld ")?;
            write_target(text, *rd)?;
            write_place(text, *rs, *field)?;
        }
        Instr::Malloc { rd, types } => {
            text.extend_from_slice(b"malloc ")?;
            write_register(text, *rd)?;
            write_list(text, types, depth)?;
        }
        Instr::Mov { rd, v } => {
            text.extend_from_slice(b"mov ")?;
            write_operands(text, *rd, v, depth)?;
        }
        Instr::St { rd, field, rs } => {
            text.extend_from_slice(b"st ")?;
            write_place(text, *rd, *field)?;
            text.extend_from_slice(b", ")?;
            write_register(text, *rs)?;
        }
        Instr::Unpack { rd, v } => {
            write_unpacked(text, *rd, depth)?;
            write_value(text, v, depth)?;
        }
    }
    Ok(())
}

// The end of a block.
pub(crate) fn write_end(text: &mut Vec<u8>, end: &End, depth: u64) -> Result<(), OutOfMemory>
    requires { (blocks heap : ℕ) × WellFormedEnd blocks heap depth (end_of end.now) }
    ensures { OnOk result (text.new.items ≡ text.old.items ++ render (end_written depth (end_of end.now))) }
{
    match end {
        End::Jmp(v) => {
            text.extend_from_slice(b"jmp ")?;
            write_value(text, v, depth)
        }
        End::Halt => {
            text.extend_from_slice(b"halt[int]")?;
            Ok(())
        }
    }
}
