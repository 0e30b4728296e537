//! The tokens of a source text.
#![tactic(auto)]

mod kind;
mod laws;
mod scan;
mod token;

pub use kind::Kind;
pub use laws::{cut_or_fault, no_fault_where_cut, one_cut, one_token_fault};
pub use token::{Token, tokens};
