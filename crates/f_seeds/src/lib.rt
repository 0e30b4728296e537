//! Sources from a seed: for each number a program of 64 items, which tries every form of the source calculus.
#![tactic(auto)]

mod item;
mod laws;
mod source;

pub use laws::{sources_are_programs, sources_have_no_fault};
pub use source::source_of;
