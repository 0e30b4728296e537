//! Closure conversion of programs.
#![tactic(auto)]

mod bounds;
mod clues;
mod info;
mod know;
mod program;
mod state;
mod translate;

pub use program::close;
