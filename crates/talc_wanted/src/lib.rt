//! What could stand at a place of a text: the kinds of tokens that a table's machine takes there.
#![tactic(auto)]

mod assembly;
pub mod assembly_laws;
mod assembly_table;
mod assembly_words;
mod language;
mod line;
mod listing;
mod machine;
mod source;
pub mod source_laws;
mod source_table;
mod source_words;

pub use assembly::tal_wanted;
pub use language::{Language, Row, Sym};
pub use line::line_of;
pub use source::source_wanted;
