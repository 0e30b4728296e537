//! The checker of the typed assembly language: whether the typing rules accept a program, or else its first fault.
#![tactic(auto)]

mod checked;
mod checker;
mod entering;
mod instructions;
mod program;
mod salt;
mod unfit;
mod values;
mod walk;

pub use checked::Checked;
pub use checker::{check, check_salted, mismatch_of, seal};
pub use salt::salt_of;
pub use walk::{Walk, types_at};
