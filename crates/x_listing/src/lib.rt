//! The listing of a program's code: blocks, addresses, bytes and instructions.
#![tactic(auto)]

mod instructions;
mod lines;
mod note;
mod numbers;
mod page;
mod runtime;
mod told;
mod walk;
mod words;

pub use note::Note;
pub use page::listing_of;
pub use walk::notes_of;
