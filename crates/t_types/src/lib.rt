//! Types of the typed assembly language: trees, shift and put, equality, and which type fits which.
#![tactic(auto)]

mod copying;
mod equality;
mod fitting;
mod laws;
mod lists;
mod types;
mod walks;

pub use copying::{copy, copy_file};
pub use equality::eq;
pub use fitting::{find, fits, fits_file};
pub use laws::{puts_exchange, puts_under};
pub use lists::{file_below, put_types, shift_types, types_below};
pub use types::{RegFile, TType};
pub use walks::{put_regs, put_type, type_below};
