//! Code of the processor x86-64 as bytes.
#![tactic(auto)]

mod encoding;
mod jumping;
mod numbers;

pub use encoding::encode;
pub use jumping::distance;
