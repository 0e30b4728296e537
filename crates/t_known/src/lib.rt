//! What is known of registers and labels, by numbers of types, and what is at odds in a fault.
#![tactic(auto)]

mod jumps;
mod labels;
mod marking;
mod marks;
mod mismatch;
mod odds;
mod parts;
mod refusal;
mod registers;
mod small;

pub use labels::{Labels, tuple_of};
pub use marking::flag_of;
pub use mismatch::Mismatch;
pub use odds::Odds;
pub use parts::{CodeParts, code_parts, exists_body, intern, is_int, owed, owes_nothing};
pub use refusal::{Refusal, at_odds, refused};
pub use registers::{Entry, Registers};
