// The numbers by which code names registers, operations, shifts and conditions.
ghost use Rattle.std.specs.Prelude.{◌≡◌};
ghost use Rattle.x_terms.specs.Numbers as spec;

use x_terms::{Condition, Op, Register, Shift};

pub(crate) fn number(r: Register) -> u8
    ensures { result ≡ spec.number r }
{
    match r {
        Register::Rax => 0,
        Register::Rcx => 1,
        Register::Rdx => 2,
        Register::Rbx => 3,
        Register::Rbp => 5,
        Register::Rsi => 6,
        Register::Rdi => 7,
        Register::R8 => 8,
        Register::R9 => 9,
        Register::R10 => 10,
        Register::R11 => 11,
        Register::R12 => 12,
        Register::R13 => 13,
        Register::R14 => 14,
        Register::R15 => 15,
    }
}

pub(crate) fn op_number(op: Op) -> u8
    ensures { result ≡ spec.op_number op }
{
    match op {
        Op::Add => 0,
        Op::Or => 1,
        Op::And => 4,
        Op::Sub => 5,
        Op::Cmp => 7,
    }
}

pub(crate) fn shift_number(shift: Shift) -> u8
    ensures { result ≡ spec.shift_number shift }
{
    match shift {
        Shift::Shl => 4,
        Shift::Shr => 5,
    }
}

pub(crate) fn condition_number(condition: Condition) -> u8
    ensures { result ≡ spec.condition_number condition }
{
    match condition {
        Condition::B => 2,
        Condition::Ae => 3,
        Condition::E => 4,
        Condition::Ne => 5,
        Condition::Be => 6,
        Condition::A => 7,
    }
}
