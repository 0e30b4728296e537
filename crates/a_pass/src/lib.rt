//! Allocation: each tuple of constants of a hoisted program becomes a data tuple, any other tuple a malloc and the
//! initialisations of its fields, and each cell a tuple of one field.
#![tactic(auto)]

mod constants;
mod emit;
mod nodes;
mod noting;
mod parts;
mod program;
mod run;
mod scope;
mod state;
mod term;
mod types;

pub use program::allocate;
