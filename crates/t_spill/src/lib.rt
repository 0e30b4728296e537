//! The bound on registers: a program whose greater registers are kept in tuples of the heap, frames and slots.
#![tactic(auto)]

mod ahead;
mod applied;
mod block;
mod files;
mod finish;
mod known;
mod picking;
mod program;
mod reads;
mod shapes;
mod stepping;
mod subject;
mod typing;
mod wanting;
mod way;
mod within;

pub use program::spill;
pub use within::is_within;
