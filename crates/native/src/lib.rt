//! From a checked program to an executable file, and to a listing of its code.
#![tactic(auto)]

mod code;
mod error;
mod listing;

pub use code::native_code;
pub use error::NativeError;
pub use listing::native_listing;
