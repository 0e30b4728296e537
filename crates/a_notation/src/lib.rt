//! The notation of allocated programs.
#![tactic(auto)]

mod closures;
mod lines;
mod program;
mod scope;
mod terms;
mod types;
mod values;

pub use program::write_allocated;
