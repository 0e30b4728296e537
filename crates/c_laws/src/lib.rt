//! What closure conversion keeps: laws of its functions on trees and of its walks.
#![tactic(auto)]

pub mod laws;
pub mod walk_laws;
