//! The translation of programs of the assembly language to word code, with the runtime.
#![tactic(auto)]

mod blocks;
mod data;
mod emit;
mod error;
mod instructions;
mod limits;
mod memory;
mod programs;
mod runtime;
mod values;

pub use error::BuildError;
pub use limits::registers;
pub use programs::program;
