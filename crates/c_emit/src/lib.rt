//! Closure conversion: the free variables of codes, and the closed term that is written.
#![tactic(auto)]

pub mod close_type;
pub mod emit;
mod free_state;
mod names;
mod parts;
mod put;
mod state;
pub mod sweep;
pub mod tsweep;
pub mod type_levels;
pub mod vars;

pub use free_state::Found;
pub use names::{Renaming, Side};
pub use parts::{Frame, Info, Inside, Note};
