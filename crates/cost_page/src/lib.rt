//! The page on what a run of an assembly program made: how many steps of which kind, what they allocated, and which
//! places were executed most.
#![tactic(auto)]

mod laws;
mod most;
mod page;
mod places;
mod totals;

pub use laws::{first_of_equals, kinds_add_up, most_is_most};
pub use page::{Made, page_of};
pub use places::{Kind, Place};
pub use totals::Measure;
