//! The program that an assembly text stands for, or the first fault of the text.
#![tactic(auto)]

mod faults;
mod heads;
mod labels;
mod reader;
mod resolve;
mod scope;
mod target;
mod types;

pub use labels::salt_of;
pub use reader::{read, read_salted};
