// Instructions of the program as text, without types.
ghost use Rattle.std.specs.Prelude.{◌≡◌, ◌++◌, ◌∷◌, OnOk, codes, decimal};
ghost use Rattle.t_terms.specs.Read.{base as base_tree, value as value_tree, instr as instr_tree, end_of};
ghost use Rattle.t_rules.specs.Erase.{erase_value, erase_instr, erase_end};
ghost use Rattle.x_listing.specs.Notes as spec;

use idx_core::{Op, OutOfMemory};
use page_core::{write_integer, write_natural};
use t_terms::{Base, End, Instr, Value};

// What a value is without its types and packages.
pub(crate) fn base_of(v: &Value) -> Base
    ensures { base_tree result ≡ erase_value (value_tree v.now) }
{
    match v {
        Value::Plain { base, types: _ } => *base,
        Value::Pack {
            hidden: _,
            inner,
            shape: _,
        } => base_of(inner),
    }
}

// A letter and a number.
fn write_name(text: &mut Vec<u8>, letter: u8, n: u64) -> Result<(), OutOfMemory>
    ensures { OnOk result (text.new.items ≡ text.old.items ++ (letter ∷ decimal n)) }
{
    text.push(letter)?;
    write_natural(text, n)
}

fn write_register(text: &mut Vec<u8>, q: u64) -> Result<(), OutOfMemory>
    ensures { OnOk result (text.new.items ≡ text.old.items ++ spec.register q) }
{
    write_name(text, b'r', q)
}

fn write_base(text: &mut Vec<u8>, v: Base) -> Result<(), OutOfMemory>
    ensures { OnOk result (text.new.items ≡ text.old.items ++ spec.base (base_tree v)) }
{
    match v {
        Base::Reg(q) => write_register(text, q),
        Base::Int(i) => write_integer(text, i),
        Base::Label(l) => write_name(text, b'L', l),
        Base::Data(d) => write_name(text, b'D', d),
    }
}

fn op_name(op: Op) -> &'static [u8]
    ensures { result.now ≡ spec.op op }
{
    match op {
        Op::Add => b"add ",
        Op::Sub => b"sub ",
        Op::Mul => b"mul ",
    }
}

fn write_field(text: &mut Vec<u8>, q: u64, i: u64) -> Result<(), OutOfMemory>
    ensures { OnOk result (text.new.items ≡ text.old.items ++ spec.field q i) }
{
    write_register(text, q)?;
    text.push(b'[')?;
    write_natural(text, i)?;
    text.push(b']')?;
    Ok(())
}

// A name and the first operand, which is a register.
fn write_first(text: &mut Vec<u8>, name: &[u8], q: u64) -> Result<(), OutOfMemory>
    ensures { OnOk result (text.new.items ≡ text.old.items ++ (name.now ++ (spec.register q ++ codes ", "))) }
{
    text.extend_from_slice(name)?;
    write_register(text, q)?;
    text.extend_from_slice(b", ")?;
    Ok(())
}

// A register and a value.
fn write_operands(text: &mut Vec<u8>, name: &[u8], q: u64, v: &Value) -> Result<(), OutOfMemory>
    ensures { OnOk result (text.new.items
        ≡ text.old.items
        ++ (name.now ++ spec.two (spec.register q) (spec.base (erase_value (value_tree v.now))))) }
{
    write_first(text, name, q)?;
    write_base(text, base_of(v))
}

fn write_store(text: &mut Vec<u8>, rd: u64, field: u64, rs: u64) -> Result<(), OutOfMemory>
    ensures { OnOk result
        (text.new.items ≡ text.old.items ++ (codes "st " ++ spec.two (spec.field rd field) (spec.register rs))) }
{
    text.extend_from_slice(b"st ")?;
    write_field(text, rd, field)?;
    text.extend_from_slice(b", ")?;
    write_register(text, rs)
}

// An instruction.
pub(crate) fn write_instr(text: &mut Vec<u8>, i: &Instr) -> Result<(), OutOfMemory>
    ensures { OnOk result
        (text.new.items ≡ text.old.items ++ spec.instr (erase_instr (instr_tree i.now))) }
{
    match i {
        Instr::Arith { op, rd, rs, v } => {
            write_first(text, op_name(*op), *rd)?;
            write_operands(text, b"", *rs, v)
        }
        Instr::Bnz { r, v } => write_operands(text, b"bnz ", *r, v),
        Instr::Ld { rd, rs, field } => {
            write_first(text, b"ld ", *rd)?;
            write_field(text, *rs, *field)
        }
        Instr::Malloc { rd, types } => {
            write_first(text, b"malloc ", *rd)?;
            write_natural(text, types.len() as u64)
        }
        Instr::Mov { rd, v } => write_operands(text, b"mov ", *rd, v),
        Instr::St { rd, field, rs } => write_store(text, *rd, *field, *rs),
        Instr::Unpack { rd, v } => write_operands(text, b"mov ", *rd, v),
    }
}

// The end of a block.
pub(crate) fn write_last(text: &mut Vec<u8>, end: &End) -> Result<(), OutOfMemory>
    ensures { OnOk result
        (text.new.items ≡ text.old.items ++ spec.last (erase_end (end_of end.now))) }
{
    match end {
        End::Jmp(v) => {
            text.extend_from_slice(b"jmp ")?;
            write_base(text, base_of(v))
        }
        End::Halt => {
            text.extend_from_slice(b"halt")?;
            Ok(())
        }
    }
}

// The name of a block, and that of a place in it.
pub(crate) fn write_block_name(text: &mut Vec<u8>, b: u64) -> Result<(), OutOfMemory>
    ensures { OnOk result (text.new.items ≡ text.old.items ++ spec.block_name b) }
{
    write_name(text, b'L', b)
}

pub(crate) fn write_place(text: &mut Vec<u8>, b: u64, i: u64) -> Result<(), OutOfMemory>
    ensures { OnOk result (text.new.items ≡ text.old.items ++ spec.place_name b i) }
{
    write_block_name(text, b)?;
    text.push(b'.')?;
    write_natural(text, i)
}
