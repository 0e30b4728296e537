//! Hoisted programs: labelled blocks and a main term, their terms as flat lists of nodes.
#![tactic(auto)]

mod access;
pub mod laws;
mod node;
mod program;

pub use node::{HBlock, HForm, HNode, HPart};
pub use program::HProgram;
