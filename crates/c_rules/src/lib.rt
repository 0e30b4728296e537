//! Closure conversion as functions: on trees, and as walks along the nodes of a term.
#![tactic(auto)]

pub mod levels;

pub use levels::Levels;
