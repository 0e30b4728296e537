//! The words of the command line: which words are a command, read by `clap`.
#![tactic(auto)]

mod command;
mod description;
mod form;
mod laws;
mod reading;

pub use command::{Command, NoCommand};
pub use form::Form;
pub use laws::{command_where_taken, numbers_are_in_bounds};
pub use reading::read;
