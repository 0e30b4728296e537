//! Programs of the typed assembly language: values, instructions, blocks, data, and the faults of a text.
#![tactic(auto)]

mod block;
mod bodies;
mod data;
mod fault;
mod instr;
mod integers;
mod laws;
mod making;
mod program;
mod scopes;
mod shown;
mod value;
mod walks;

pub use block::Block;
pub use data::Data;
pub use fault::{TCode, TFault};
pub use instr::{End, Instr};
pub use laws::{places_aside, puts_exchange, puts_under};
pub use program::TProgram;
pub use shown::Shown;
pub use value::{Base, Value};
pub use walks::names_after;
