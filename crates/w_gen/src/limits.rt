// How large the numbers are that a program names.
ghost use Rattle.std.specs.Prelude.{◌≡◌, ℕ, suc, ◌≤◌, ◌<◌, ◌^◌, max, map, IfOk, IfErr};
ghost use Rattle.t_terms.specs.Read.{base as base_tree, instr as instr_tree, block as block_tree, blocks_of, end_of};
ghost use Rattle.t_terms.specs.ReadProgram.{program as program_tree};
ghost use Rattle.t_rules.specs.Erase.{erase_instr, erase_end, erase_block};
ghost use Rattle.w_gen.specs.declared.error.BuildError.TheVariants as error;
ghost use Rattle.w_gen.specs.Limits.{base_register, instr_register, instr_field, seq_register, seq_field};
ghost use Rattle.w_gen.specs.Limits.{highest_register, highest_field, registers_of, IsWide};

use crate::error::BuildError;
use crate::values::base_of;
use t_terms::{Base, Block, End, Instr, TProgram};

// Registers below this one.
const REGISTERS: u64 = 0x10_0000;

/// How many registers a program has: one more than the highest that it names, and two at least, since a program that
/// halts does so with the integer in register 1. More than 2^20 are too many.
pub fn registers(program: &TProgram) -> Result<u64, BuildError>
    ensures count { IfOk result (λ n. n ≡ registers_of (program_tree program.now)) }
    ensures bound { IfOk result (λ n. n ≤ 2 ^ 20) }
    ensures wide { IfErr result (λ e. IsWide (program_tree program.now)) }
    ensures cause { IfErr result (λ e. e ≡ error.TooLarge) }
{
    let highest = highest_of(&program.blocks);
    if highest.register >= REGISTERS {
        return Err(BuildError::TooLarge);
    }
    Ok(highest.register.max(1) + 1)
}

// The highest register that is named, and the highest field that is named or number of fields that is made.
#[derive(Clone, Copy)]
pub(crate) struct Highest {
    pub register: u64,
    pub field: u64,
}

// Of blocks.
pub(crate) fn highest_of(blocks: &[Block]) -> Highest
    ensures register { result.register ≡ highest_register (map erase_block (blocks_of blocks.now)) }
    ensures field { result.field ≡ highest_field (map erase_block (blocks_of blocks.now)) }
{
    let mut register: u64 = 0;
    let mut field: u64 = 0;
    for one in blocks {
        let of_one = of_block(one);
        register = register.max(of_one.register);
        field = field.max(of_one.field);
    }
    Highest { register, field }
}

// Of a block.
fn of_block(block: &Block) -> Highest
    ensures register { result.register ≡ seq_register (erase_block (block_tree block.now)) }
    ensures field { result.field ≡ seq_field (erase_block (block_tree block.now)) }
{
    let mut register: u64 = 0;
    let mut field: u64 = 0;
    for step in &block.body {
        register = register.max(of_instruction(&step.0));
        field = field.max(field_of(&step.0));
    }
    Highest {
        register: register.max(of_end(&block.end)),
        field,
    }
}

// The highest register that the end of a block names, or 0.
fn of_end(end: &End) -> u64
    ensures { result ≡ seq_register (erase_end (end_of end.now)) }
{
    match end {
        End::Jmp(v) => of_base(base_of(v)),
        End::Halt => 0,
    }
}

// The highest register that an instruction names.
fn of_instruction(i: &Instr) -> u64
    ensures { result ≡ instr_register (erase_instr (instr_tree i.now)) }
{
    match i {
        Instr::Arith { op: _, rd, rs, v } => (*rd).max(*rs).max(of_base(base_of(v))),
        Instr::Bnz { r, v } => (*r).max(of_base(base_of(v))),
        Instr::Ld { rd, rs, field: _ } => (*rd).max(*rs),
        Instr::Malloc { rd, types: _ } => *rd,
        Instr::Mov { rd, v } => (*rd).max(of_base(base_of(v))),
        Instr::St { rd, field: _, rs } => (*rd).max(*rs),
        Instr::Unpack { rd, v } => (*rd).max(of_base(base_of(v))),
    }
}

// The field that an instruction names, or the number of fields of the tuple that it makes, or 0.
fn field_of(i: &Instr) -> u64
    ensures { result ≡ instr_field (erase_instr (instr_tree i.now)) }
{
    match i {
        Instr::Arith { .. } => 0,
        Instr::Bnz { .. } => 0,
        Instr::Ld {
            rd: _,
            rs: _,
            field,
        } => *field,
        Instr::Malloc { rd: _, types } => types.len() as u64,
        Instr::Mov { .. } => 0,
        Instr::St {
            rd: _,
            field,
            rs: _,
        } => *field,
        Instr::Unpack { .. } => 0,
    }
}

// The register that a base is, or 0.
fn of_base(base: Base) -> u64
    ensures { result ≡ base_register (base_tree base) }
{
    match base {
        Base::Reg(q) => q,
        Base::Int(_) => 0,
        Base::Label(_) => 0,
        Base::Data(_) => 0,
    }
}
