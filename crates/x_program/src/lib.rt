//! From a program of word code to an executable file.
#![tactic(auto)]

mod content;
mod file;

pub use file::{Refused, executable};
