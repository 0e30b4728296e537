// Instructions of the processor as text.
ghost use Rattle.std.specs.Prelude.{◌≡◌, ◌++◌, OnOk, codes};
ghost use Rattle.x_terms.specs.Machine as machine;
ghost use Rattle.x_listing.specs.Text as spec;

use crate::numbers::write_number;
use idx_core::OutOfMemory;
use x_terms::{Address, Condition, Instr, Op, Register, Shift, Source};

fn register_name(r: Register) -> &'static [u8]
    ensures { result.now ≡ spec.register r }
{
    match r {
        Register::Rax => b"rax",
        Register::Rcx => b"rcx",
        Register::Rdx => b"rdx",
        Register::Rbx => b"rbx",
        Register::Rbp => b"rbp",
        Register::Rsi => b"rsi",
        Register::Rdi => b"rdi",
        Register::R8 => b"r8",
        Register::R9 => b"r9",
        Register::R10 => b"r10",
        Register::R11 => b"r11",
        Register::R12 => b"r12",
        Register::R13 => b"r13",
        Register::R14 => b"r14",
        Register::R15 => b"r15",
    }
}

fn write_register(page: &mut Vec<u8>, r: Register) -> Result<(), OutOfMemory>
    ensures { OnOk result (page.new.items ≡ page.old.items ++ spec.register r) }
{
    page.extend_from_slice(register_name(r))?;
    Ok(())
}

// The word of a number with a sign.
fn word(d: i32) -> u64
    ensures { result ≡ machine.word d }
{
    (d as i64).cast_unsigned()
}

fn write_source(page: &mut Vec<u8>, source: Source) -> Result<(), OutOfMemory>
    ensures { OnOk result (page.new.items ≡ page.old.items ++ spec.source source) }
{
    match source {
        Source::Reg(r) => write_register(page, r),
        Source::Int(i) => write_number(page, word(i)),
    }
}

// How far an address is from a register.
fn write_offset(page: &mut Vec<u8>, d: i32) -> Result<(), OutOfMemory>
    ensures { OnOk result (page.new.items ≡ page.old.items ++ spec.offset d) }
{
    if d < 0 {
        page.push(b'-')?;
    } else {
        page.push(b'+')?;
    }
    write_number(page, d.unsigned_abs() as u64)
}

fn write_address(page: &mut Vec<u8>, address: Address) -> Result<(), OutOfMemory>
    ensures { OnOk result (page.new.items ≡ page.old.items ++ spec.address address) }
{
    match address {
        Address::Absolute(d) => {
            page.extend_from_slice(b"ds:")?;
            write_number(page, word(d))
        }
        Address::Based(r, d) => {
            page.push(b'[')?;
            write_register(page, r)?;
            write_offset(page, d)?;
            page.push(b']')?;
            Ok(())
        }
    }
}

// The word at an address.
fn write_memory(page: &mut Vec<u8>, address: Address) -> Result<(), OutOfMemory>
    ensures { OnOk result (page.new.items ≡ page.old.items ++ spec.memory address) }
{
    page.extend_from_slice(b"QWORD PTR ")?;
    write_address(page, address)
}

// The first operand, which is a register, and what stands between both.
fn write_first(page: &mut Vec<u8>, name: &[u8], r: Register) -> Result<(), OutOfMemory>
    ensures { OnOk result (page.new.items ≡ page.old.items ++ (name.now ++ (spec.register r ++ codes ","))) }
{
    page.extend_from_slice(name)?;
    write_register(page, r)?;
    page.push(b',')?;
    Ok(())
}

fn op_name(op: Op) -> &'static [u8]
    ensures { result.now ≡ spec.op op }
{
    match op {
        Op::Add => b"add    ",
        Op::Or => b"or     ",
        Op::And => b"and    ",
        Op::Sub => b"sub    ",
        Op::Cmp => b"cmp    ",
    }
}

fn shift_name(shift: Shift) -> &'static [u8]
    ensures { result.now ≡ spec.shift shift }
{
    match shift {
        Shift::Shl => b"shl    ",
        Shift::Shr => b"shr    ",
    }
}

fn jump_name(condition: Condition) -> &'static [u8]
    ensures { result.now ≡ spec.jump_if condition }
{
    match condition {
        Condition::B => b"jb     ",
        Condition::Ae => b"jae    ",
        Condition::E => b"je     ",
        Condition::Ne => b"jne    ",
        Condition::Be => b"jbe    ",
        Condition::A => b"ja     ",
    }
}

// An instruction that stores a register.
fn write_store(page: &mut Vec<u8>, address: Address, r: Register) -> Result<(), OutOfMemory>
    ensures { OnOk result
        (page.new.items ≡ page.old.items ++ (codes "mov    " ++ spec.two (spec.memory address) (spec.register r))) }
{
    page.extend_from_slice(b"mov    ")?;
    write_memory(page, address)?;
    page.push(b',')?;
    write_register(page, r)
}

// A jump to an address that is so far from the next one.
fn write_jump(page: &mut Vec<u8>, name: &[u8], next: u64, d: i32) -> Result<(), OutOfMemory>
    ensures { OnOk result (page.new.items
        ≡ page.old.items ++ (name.now ++ spec.number (machine.plus next (machine.word d)))) }
{
    page.extend_from_slice(name)?;
    write_number(page, next.wrapping_add(word(d)))
}

// A jump to where a register leads.
fn jump_to(r: Register) -> &'static [u8]
    ensures { result.now ≡ spec.jump_to r }
{
    match r {
        Register::Rax => b"rex jmp ",
        Register::Rcx => b"rex jmp ",
        Register::Rdx => b"rex jmp ",
        Register::Rbx => b"rex jmp ",
        Register::Rbp => b"rex jmp ",
        Register::Rsi => b"rex jmp ",
        Register::Rdi => b"rex jmp ",
        Register::R8 => b"jmp    ",
        Register::R9 => b"jmp    ",
        Register::R10 => b"jmp    ",
        Register::R11 => b"jmp    ",
        Register::R12 => b"jmp    ",
        Register::R13 => b"jmp    ",
        Register::R14 => b"jmp    ",
        Register::R15 => b"jmp    ",
    }
}

// Two registers.
fn write_both(page: &mut Vec<u8>, name: &[u8], r: Register, q: Register) -> Result<(), OutOfMemory>
    ensures { OnOk result
        (page.new.items ≡ page.old.items ++ (name.now ++ spec.two (spec.register r) (spec.register q))) }
{
    write_first(page, name, r)?;
    write_register(page, q)
}

// A register, and a number or a register.
fn write_operands(
    page: &mut Vec<u8>,
    name: &[u8],
    r: Register,
    source: Source,
) -> Result<(), OutOfMemory>
    ensures { OnOk result
        (page.new.items ≡ page.old.items ++ (name.now ++ spec.two (spec.register r) (spec.source source))) }
{
    write_first(page, name, r)?;
    write_source(page, source)
}

// A register and a number.
fn write_counted(page: &mut Vec<u8>, name: &[u8], r: Register, n: u64) -> Result<(), OutOfMemory>
    ensures { OnOk result
        (page.new.items ≡ page.old.items ++ (name.now ++ spec.two (spec.register r) (spec.number n))) }
{
    write_first(page, name, r)?;
    write_number(page, n)
}

// Puts an instruction behind which the next one is at the address.
pub(crate) fn write_instr(page: &mut Vec<u8>, next: u64, instr: Instr) -> Result<(), OutOfMemory>
    ensures { OnOk result (page.new.items ≡ page.old.items ++ spec.instr next instr) }
{
    match instr {
        Instr::Const(r, n) => write_counted(page, b"movabs ", r, n),
        Instr::Mov(r, source) => write_operands(page, b"mov    ", r, source),
        Instr::Load(r, address) => {
            write_first(page, b"mov    ", r)?;
            write_memory(page, address)
        }
        Instr::Store(address, r) => write_store(page, address, r),
        Instr::Lea(r, address) => {
            write_first(page, b"lea    ", r)?;
            write_address(page, address)
        }
        Instr::Arith(op, r, source) => write_operands(page, op_name(op), r, source),
        Instr::Imul(r, q) => write_both(page, b"imul   ", r, q),
        Instr::Shift(shift, r, by) => write_counted(page, shift_name(shift), r, by as u64),
        Instr::Test(r, q) => write_both(page, b"test   ", r, q),
        Instr::Jmp(d) => write_jump(page, b"jmp    ", next, d),
        Instr::Jcc(condition, d) => write_jump(page, jump_name(condition), next, d),
        Instr::JmpReg(r) => {
            page.extend_from_slice(jump_to(r))?;
            write_register(page, r)
        }
        Instr::Syscall => {
            page.extend_from_slice(b"syscall")?;
            Ok(())
        }
    }
}
