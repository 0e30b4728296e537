//! Word code: programs over words of 64 bits, in registers and in a memory of words, without types.
#![tactic(auto)]

mod instr;
mod program;

pub use instr::{WCond, WEnd, WInstr, WOp, WOperand};
pub use program::{WBlock, WDatum, WProgram};
