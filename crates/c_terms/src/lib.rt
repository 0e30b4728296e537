//! The closed calculus: its types, its terms as flat streams of nodes, and its programs.
#![tactic(auto)]

mod access;
pub mod laws;
mod node;
mod program;

pub use calc_core::CoreType as CType;
pub use node::CNode;
pub use program::CProgram;
