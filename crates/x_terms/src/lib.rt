//! Code of the processor x86-64: the instructions that compiled programs are made of.
#![tactic(auto)]

mod instr;
mod register;

pub use instr::{Address, Condition, Instr, Op, Shift, Source};
pub use register::Register;
