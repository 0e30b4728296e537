//! Paths into types: the first place at which two types differ, and what stands there.
#![tactic(auto)]

mod assembly;
mod laws;
mod source;
mod step;

pub use assembly::{Part, assembly_bound, assembly_misfit, assembly_part};
pub use laws::{assembly_differences, assembly_misfits, source_differences};
pub use source::{source_difference, source_part};
pub use step::Step;
