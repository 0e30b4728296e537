// The code of a program, without types.
ghost use Rattle.std.specs.Prelude.{◌≡◌};
ghost use Rattle.t_machine.specs.Action as act;
ghost use Rattle.t_machine.specs.Action.{action};

use crate::places::Places;
use idx_core::Op;

/// What a small value is without its types and packages: the register at a place, an integer, a block's label, or the
/// address of a data tuple.
#[derive(Clone, Copy)]
pub(crate) enum Operand {
    Register(u32),
    Int(i64),
    Label(usize),
    Data(u64),
}

/// The right operand of an operation: the register at a place, or an integer.
#[derive(Clone, Copy)]
pub(crate) enum Number {
    Register(u32),
    Int(i64),
}

/// Where a branch or a jump leads: to the label in the register at a place, or to where a block begins in the code.
#[derive(Clone, Copy)]
pub(crate) enum Target {
    Register(u32),
    Entry(usize),
}

/// An instruction, or the end of a block, with a variant for each kind of operand. A register is the place of its word,
/// and `to` is where a block begins in the code. The register of `Halt` is register 1. A `Pair` is a `Malloc` of two
/// fields that the next two instructions fill, from the registers `first` and `second`.
#[derive(Clone, Copy)]
pub(crate) enum Instruction {
    AddRegister { rd: u32, rs: u32, right: u32 },
    AddInt { rd: u32, rs: u32, right: i64 },
    SubRegister { rd: u32, rs: u32, right: u32 },
    SubInt { rd: u32, rs: u32, right: i64 },
    MulRegister { rd: u32, rs: u32, right: u32 },
    MulInt { rd: u32, rs: u32, right: i64 },
    BnzRegister { r: u32, target: u32 },
    BnzEntry { r: u32, to: usize },
    Ld { rd: u32, rs: u32, field: usize },
    Malloc { rd: u32, size: usize },
    Pair { rd: u32, first: u32, second: u32 },
    MovRegister { rd: u32, rs: u32 },
    MovInt { rd: u32, int: i64 },
    MovLabel { rd: u32, label: usize },
    MovData { rd: u32, address: u64 },
    St { rd: u32, rs: u32, field: usize },
    JmpRegister { target: u32 },
    JmpEntry { to: usize },
    Halt { r: u32 },
}

impl Instruction {
    pub(crate) fn arith(op: Op, rd: u32, rs: u32, right: Number) -> Instruction
        ensures { action result ≡ act.Arith op rd rs right }
    {
        match right {
            Number::Register(right) => Instruction::arith_register(op, rd, rs, right),
            Number::Int(right) => Instruction::arith_int(op, rd, rs, right),
        }
    }

    fn arith_register(op: Op, rd: u32, rs: u32, right: u32) -> Instruction
        ensures { action result ≡ act.Arith op rd rs (Number.Register right) }
    {
        match op {
            Op::Add => Instruction::AddRegister { rd, rs, right },
            Op::Sub => Instruction::SubRegister { rd, rs, right },
            Op::Mul => Instruction::MulRegister { rd, rs, right },
        }
    }

    fn arith_int(op: Op, rd: u32, rs: u32, right: i64) -> Instruction
        ensures { action result ≡ act.Arith op rd rs (Number.Int right) }
    {
        match op {
            Op::Add => Instruction::AddInt { rd, rs, right },
            Op::Sub => Instruction::SubInt { rd, rs, right },
            Op::Mul => Instruction::MulInt { rd, rs, right },
        }
    }

    pub(crate) fn bnz(r: u32, target: Target) -> Instruction
        ensures { action result ≡ act.Bnz r target }
    {
        match target {
            Target::Register(target) => Instruction::BnzRegister { r, target },
            Target::Entry(to) => Instruction::BnzEntry { r, to },
        }
    }

    pub(crate) fn mov(rd: u32, v: Operand) -> Instruction
        ensures { action result ≡ act.Mov rd v }
    {
        match v {
            Operand::Register(rs) => Instruction::MovRegister { rd, rs },
            Operand::Int(int) => Instruction::MovInt { rd, int },
            Operand::Label(label) => Instruction::MovLabel { rd, label },
            Operand::Data(address) => Instruction::MovData { rd, address },
        }
    }

    pub(crate) fn jmp(target: Target) -> Instruction
        ensures { action result ≡ act.Jmp target }
    {
        match target {
            Target::Register(target) => Instruction::JmpRegister { target },
            Target::Entry(to) => Instruction::JmpEntry { to },
        }
    }
}

/// The blocks of a program, one after the other, and where each begins.
#[derive(Drop)]
pub(crate) struct Code {
    pub(crate) instructions: Vec<Instruction>,
    pub(crate) entries: Vec<usize>,
    pub(crate) places: Places,
}
