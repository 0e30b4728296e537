//! The lines of the states of an assembly program: how many steps led to a state, its place, and of each register that
//! is known there its word and its type.
#![tactic(auto)]

mod lines;
mod types;

pub use lines::{Place, line, write_line};
pub use types::{type_at, write_type};
