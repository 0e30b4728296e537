//! Hoisting: closed programs become lists of labelled blocks.
#![tactic(auto)]

pub mod laws;
mod parts;
mod program;
mod state;
mod walk;

pub use program::hoist;
