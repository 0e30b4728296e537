//! The allocated calculus: blocks of code, tuples whose fields are initialised one by one, and data tuples; its terms
//! as flat lists of nodes.
#![tactic(auto)]

mod access;
mod below;
pub mod laws;
mod nodes;
pub mod parts;
mod program;
pub mod sizes;
mod types;
pub mod walks;

pub use nodes::{ABase, ABlock, AData, AForm, ANode, AValue, AWrap};
pub use program::AProgram;
pub use types::AType;
