//! The bound on registers as a function on trees.
#![tactic(auto)]
