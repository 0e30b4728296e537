//! The notation of hoisted programs.
#![tactic(auto)]

mod fields;
mod lines;
mod parts;
mod program;
mod scope;
mod terms;

pub use program::write_hoisted;
