//! Code generation as a function on trees.
#![tactic(auto)]
