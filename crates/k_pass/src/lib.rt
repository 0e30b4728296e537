//! Conversion to continuation-passing style.
#![tactic(auto)]

mod access;
mod convert;
mod give;
mod hand;
mod program;
mod resume;
mod types;
mod walk;
mod work;

pub use program::cps;
