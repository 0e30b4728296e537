//! Listings of assembly: before each instruction the registers that are known, up to a fault.
#![tactic(auto)]

mod begun;
mod cut_laws;
mod cut_place;
mod laws;
mod lister;
mod place;
mod program;
mod rows;

pub use begun::listing_to;
pub use cut_laws::{cut_is_accepted, known_before};
pub use cut_place::{is_before_blocks, steps_before};
pub use laws::{others_stay, set_is_known};
pub use lister::listing_of;
pub use program::cut;
