//! What the inner calculi have in common: trees by kinds, typing, sizes, flat trees, types with names in scope,
//! substitution, words and stores, ends of runs.
#![tactic(auto)]

mod copying;
pub mod laws;
mod types;
mod walks;

pub use copying::{copy, copy_all};
pub use types::CoreType;
