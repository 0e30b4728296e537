//! The compiler: from a program of the source to a program of the assembly language, and the forms on the way as texts.
#![tactic(auto)]

mod compiling;
mod form;
mod form_laws;
mod laws;
mod passes;

pub use compiling::{compile, compile_within};
pub use form::form_of;
pub use form_laws::forms_are_of_translations;
pub use laws::{
    made_programs_are_translations, one_source_gives_one_closed_term, one_source_gives_one_program,
    one_source_gives_one_program_within, translations_mean_the_same,
};
