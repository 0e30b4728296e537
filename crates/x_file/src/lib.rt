//! The executable file: where code and data stand in it and in memory, and its bytes.
#![tactic(auto)]

mod content;
mod segments;
mod writing;

pub use content::put_words;
pub use writing::{FileError, write_file};
