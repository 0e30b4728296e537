//! The term that a source text stands for, or the first fault of the text.
#![tactic(auto)]

mod binding;
mod order;
mod part;
mod parts;
mod reader;
mod resolve;
mod state;
mod task;

pub use order::uses_in_text_order;
pub use reader::parse;
