//! Texts of programs of the typed assembly language.
#![tactic(auto)]

mod blocks;
mod code;
mod heap;
mod names;
mod number;
mod program;
mod types;
mod values;

pub use number::{write_integer, write_natural};
pub use program::{write, write2};
