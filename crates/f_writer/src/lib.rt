//! The canonical text of a term of the source: names by level, parentheses only where the grammar asks for them.
#![tactic(auto)]

mod begin;
mod binders;
mod depths;
mod joined;
mod laws;
mod line;
mod names;
mod number;
mod part;
mod parts;
mod task;
mod types;
mod writer;

pub use laws::{
    read_terms_can_be_written, texts_stand_for_their_terms, written_texts_are_within,
    written_twice_is_written_once,
};
pub use types::type_at;
pub use writer::write_term;
