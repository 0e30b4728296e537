//! The variables in scope of allocated terms, and the types of values.
#![tactic(auto)]

mod declaring;
mod field;
mod noted;
mod scope;
mod sharing;
mod value;

pub use declaring::{Declaration, declare};
pub use noted::Noted;
pub use scope::{Entry, noted_lent, noted_now, placed, show};
pub use value::{first, second, type_of_value};
