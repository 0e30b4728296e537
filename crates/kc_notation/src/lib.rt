//! The notation of converted and of closed programs, in which codes stand where they are made, for readers.
#![tactic(auto)]

mod bodies;
mod closed_program;
mod closed_walk;
mod cps_lines;
mod cps_program;
mod cps_walk;
mod heads;
mod joining;
mod lines;
mod operands;
mod page;
mod values;

pub use closed_program::{blank, write_closed};
pub use cps_program::write_cps;
pub use page::{Body, Page, Scope};
