// Instructions, and the ends of blocks.

use crate::value::Value;
use idx_core::Op;
use t_types::TType;

/// An instruction. Registers count from 1, fields from 0. `Unpack` binds a type variable in the rest of its block.
#[derive(Drop)]
pub enum Instr {
    Arith { op: Op, rd: u64, rs: u64, v: Value },
    Bnz { r: u64, v: Value },
    Ld { rd: u64, rs: u64, field: u64 },
    Malloc { rd: u64, types: Vec<TType> },
    Mov { rd: u64, v: Value },
    St { rd: u64, field: u64, rs: u64 },
    Unpack { rd: u64, v: Value },
}

/// How a block ends: by a jump, or by `halt[int]`, whose result is in register 1.
#[derive(Drop)]
pub enum End {
    Jmp(Value),
    Halt,
}
