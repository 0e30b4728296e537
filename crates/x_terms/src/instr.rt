// Instructions.

use crate::register::Register;

/// An operation on two words. `Cmp` is `Sub` that leaves nothing but flags.
#[derive(Clone, Copy)]
pub enum Op {
    Add,
    Or,
    And,
    Sub,
    Cmp,
}

/// A shift, to the left or to the right, which brings zeros in.
#[derive(Clone, Copy)]
pub enum Shift {
    Shl,
    Shr,
}

/// What a jump asks of the two words that were compared last, as numbers without a sign: below, at least, equal, not
/// equal, at most, above.
#[derive(Clone, Copy)]
pub enum Condition {
    B,
    Ae,
    E,
    Ne,
    Be,
    A,
}

/// A right operand: a register, or a number.
#[derive(Clone, Copy)]
pub enum Source {
    Reg(Register),
    Int(i32),
}

/// An address: a number, or a number from where a register leads.
#[derive(Clone, Copy)]
pub enum Address {
    Absolute(i32),
    Based(Register, i32),
}

/// An instruction. Numbers of 32 bits stand for words with their sign; those of jumps count from the next instruction.
#[derive(Clone, Copy)]
pub enum Instr {
    Const(Register, u64),
    Mov(Register, Source),
    Load(Register, Address),
    Store(Address, Register),
    Lea(Register, Address),
    Arith(Op, Register, Source),
    Imul(Register, Register),
    Shift(Shift, Register, u8),
    Test(Register, Register),
    Jmp(i32),
    Jcc(Condition, i32),
    JmpReg(Register),
    Syscall,
}
