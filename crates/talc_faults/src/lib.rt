//! What a page says of a fault: hints by what is there, and the types that are at odds.
#![tactic(auto)]

mod apart;
mod around;
mod assembly;
mod assembly_apart;
mod assembly_hints;
mod assembly_table;
mod choice;
mod form;
mod line_laws;
mod place;
mod sentences;
mod source;
mod source_hints;
mod source_table;
mod steps;
mod token_table;
mod type_form;
mod value;
mod walk;
mod words;

pub use apart::source_lines;
pub use assembly_apart::assembly_lines;
pub use assembly_hints::tal_hint;
pub use form::{form_of, found_form};
pub use line_laws::paths_are_short;
pub use source::not_int_line;
pub use source_hints::source_hint;
pub use type_form::Form;
pub use value::value_place;
