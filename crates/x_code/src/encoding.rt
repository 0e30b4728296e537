// The bytes of an instruction.
ghost use Rattle.std.specs.Prelude.{◌≡◌, ◌<◌, ◌++◌, OnOk};
ghost use Rattle.x_code.specs.Bytes as spec;
ghost use Rattle.x_code.specs.Bytes.{bytes_of, FitsSource, FitsAddress, FitsInstr, Stands};

use crate::numbers::{condition_number, number, op_number, shift_number};
use idx_core::OutOfMemory;
use x_terms::{Address, Condition, Instr, Op, Register, Shift, Source};

// The prefix with W, for a register or an operation by its number, and another register.
#[tactic(auto, unfolding(crate::specs::Bytes::prefix))]
fn prefix(n: u8, q: u8) -> u8
    requires n_fits { n < 16 }
    requires q_fits { q < 16 }
    ensures { result ≡ spec.prefix n q }
{
    72 + n / 8 * 4 + q / 8
}

// The byte ModRM.
#[tactic(auto, unfolding(crate::specs::Bytes::fields))]
fn fields(mode: u8, n: u8, q: u8) -> u8
    requires { mode < 4 }
    ensures { result ≡ spec.fields mode n q }
{
    mode * 64 + n % 8 * 8 + q % 8
}

// An opcode whose operand r/m is a register.
fn direct(code: &mut Vec<u8>, opcode: u8, n: u8, q: Register) -> Result<(), OutOfMemory>
    requires { n < 16 }
    ensures { OnOk result (code.new.items ≡ code.old.items ++ spec.direct opcode n q) }
{
    let rm = number(q);
    code.extend_from_slice(&[prefix(n, rm), opcode, fields(3, n, rm)])?;
    Ok(())
}

fn put_int(code: &mut Vec<u8>, i: i32) -> Result<(), OutOfMemory>
    ensures { OnOk result (code.new.items ≡ code.old.items ++ spec.int_bytes i) }
{
    code.extend_from_slice(&i.to_le_bytes())?;
    Ok(())
}

// An opcode whose operand r/m stands in memory.
fn indirect(code: &mut Vec<u8>, opcode: u8, n: u8, address: Address) -> Result<(), OutOfMemory>
    requires { n < 16 }
    ensures { OnOk result (code.new.items ≡ code.old.items ++ spec.indirect opcode n address) }
{
    match address {
        Address::Absolute(d) => {
            code.extend_from_slice(&[prefix(n, 0), opcode, fields(0, n, 4), 0x25])?;
            put_int(code, d)
        }
        Address::Based(b, d) => {
            base(code, opcode, n, number(b))?;
            put_int(code, d)
        }
    }
}

// The same up to the displacement, where it counts from a register. R12 wants an SIB byte.
fn base(code: &mut Vec<u8>, opcode: u8, n: u8, b: u8) -> Result<(), OutOfMemory>
    requires n_fits { n < 16 }
    requires b_fits { b < 16 }
    ensures { OnOk result (code.new.items ≡ code.old.items ++ spec.from_base opcode n b) }
{
    if b == 12 {
        code.extend_from_slice(&[prefix(n, b), opcode, fields(2, n, b), 0x24])?;
    } else {
        code.extend_from_slice(&[prefix(n, b), opcode, fields(2, n, b)])?;
    }
    Ok(())
}

// An opcode with a register and a number of 32 bits.
fn direct_int(code: &mut Vec<u8>, opcode: u8, n: u8, q: Register, i: i32) -> Result<(), OutOfMemory>
    requires { n < 16 }
    ensures { OnOk result (code.new.items ≡ code.old.items ++ (spec.direct opcode n q ++ spec.int_bytes i)) }
{
    direct(code, opcode, n, q)?;
    put_int(code, i)
}

fn put_mov(code: &mut Vec<u8>, q: Register, source: Source) -> Result<(), OutOfMemory>
    ensures { OnOk result (code.new.items ≡ code.old.items ++ bytes_of (Instr.Mov q source)) }
{
    match source {
        Source::Reg(r) => direct(code, 0x89, number(r), q),
        Source::Int(i) => direct_int(code, 0xC7, 0, q, i),
    }
}

fn put_arith(code: &mut Vec<u8>, op: Op, q: Register, source: Source) -> Result<(), OutOfMemory>
    ensures { OnOk result (code.new.items ≡ code.old.items ++ bytes_of (Instr.Arith op q source)) }
{
    match source {
        Source::Reg(r) => direct(code, op_number(op) * 8 + 1, number(r), q),
        Source::Int(i) => direct_int(code, 0x81, op_number(op), q, i),
    }
}

fn put_const(code: &mut Vec<u8>, r: Register, word: u64) -> Result<(), OutOfMemory>
    ensures { OnOk result (code.new.items ≡ code.old.items ++ bytes_of (Instr.Const r word)) }
{
    let n = number(r);
    code.extend_from_slice(&[prefix(0, n), 0xB8 + n % 8])?;
    code.extend_from_slice(&word.to_le_bytes())?;
    Ok(())
}

fn put_imul(code: &mut Vec<u8>, r: Register, q: Register) -> Result<(), OutOfMemory>
    ensures { OnOk result (code.new.items ≡ code.old.items ++ bytes_of (Instr.Imul r q)) }
{
    let (n, rm) = (number(r), number(q));
    code.extend_from_slice(&[prefix(n, rm), 0x0F, 0xAF, fields(3, n, rm)])?;
    Ok(())
}

fn put_shift(code: &mut Vec<u8>, shift: Shift, q: Register, by: u8) -> Result<(), OutOfMemory>
    ensures { OnOk result (code.new.items ≡ code.old.items ++ bytes_of (Instr.Shift shift q by)) }
{
    direct(code, 0xC1, shift_number(shift), q)?;
    code.push(by)?;
    Ok(())
}

fn put_jmp(code: &mut Vec<u8>, d: i32) -> Result<(), OutOfMemory>
    ensures { OnOk result (code.new.items ≡ code.old.items ++ bytes_of (Instr.Jmp d)) }
{
    code.push(0xE9)?;
    put_int(code, d)
}

fn put_jcc(code: &mut Vec<u8>, condition: Condition, d: i32) -> Result<(), OutOfMemory>
    ensures { OnOk result (code.new.items ≡ code.old.items ++ bytes_of (Instr.Jcc condition d)) }
{
    code.extend_from_slice(&[0x0F, 0x80 + condition_number(condition)])?;
    put_int(code, d)
}

fn put_jmp_reg(code: &mut Vec<u8>, q: Register) -> Result<(), OutOfMemory>
    ensures { OnOk result (code.new.items ≡ code.old.items ++ bytes_of (Instr.JmpReg q)) }
{
    let rm = number(q);
    code.extend_from_slice(&[0x40 + rm / 8, 0xFF, fields(3, 4, rm)])?;
    Ok(())
}

fn put_syscall(code: &mut Vec<u8>) -> Result<(), OutOfMemory>
    ensures { OnOk result (code.new.items ≡ code.old.items ++ bytes_of Instr.Syscall) }
{
    code.extend_from_slice(&[0x0F, 0x05])?;
    Ok(())
}

// The bytes of an instruction, at the end of the code.
fn put(code: &mut Vec<u8>, instr: Instr) -> Result<(), OutOfMemory>
    ensures { OnOk result (code.new.items ≡ code.old.items ++ bytes_of instr) }
{
    match instr {
        Instr::Const(r, word) => put_const(code, r, word),
        Instr::Mov(q, source) => put_mov(code, q, source),
        Instr::Load(r, address) => indirect(code, 0x8B, number(r), address),
        Instr::Store(address, r) => indirect(code, 0x89, number(r), address),
        Instr::Lea(r, address) => indirect(code, 0x8D, number(r), address),
        Instr::Arith(op, q, source) => put_arith(code, op, q, source),
        Instr::Imul(r, q) => put_imul(code, r, q),
        Instr::Shift(shift, q, by) => put_shift(code, shift, q, by),
        Instr::Test(q, r) => direct(code, 0x85, number(r), q),
        Instr::Jmp(d) => put_jmp(code, d),
        Instr::Jcc(condition, d) => put_jcc(code, condition, d),
        Instr::JmpReg(q) => put_jmp_reg(code, q),
        Instr::Syscall => put_syscall(code),
    }
}

// Does nothing: to read the numbers of an instruction tells that they have their bits.
fn read_source(source: Source)
    ensures { FitsSource source }
{
    if let Source::Int(i) = source {
        let _read = i;
    }
}

fn read_address(address: Address)
    ensures { FitsAddress address }
{
    match address {
        Address::Absolute(d) => {
            let _read = d;
        }
        Address::Based(_, d) => {
            let _read = d;
        }
    }
}

fn read_numbers(instr: Instr)
    ensures { FitsInstr instr }
{
    match instr {
        Instr::Const(_, word) => {
            let _read = word;
        }
        Instr::Mov(_, source) => read_source(source),
        Instr::Load(_, address) => read_address(address),
        Instr::Store(address, _) => read_address(address),
        Instr::Lea(_, address) => read_address(address),
        Instr::Arith(_, _, source) => read_source(source),
        Instr::Jmp(d) => {
            let _read = d;
        }
        Instr::Jcc(_, d) => {
            let _read = d;
        }
        _ => {}
    }
}

/// Puts the bytes of an instruction at the end of the code. What stands there is read as this instruction, whatever
/// follows. An error is want of memory.
pub fn encode(code: &mut Vec<u8>, instr: Instr) -> Result<(), OutOfMemory>
    ensures bytes { OnOk result (code.new.items ≡ code.old.items ++ bytes_of instr) }
    ensures decoded { OnOk result (Stands instr code.old.items code.new.items) }
{
    read_numbers(instr);
    put(code, instr)
}
