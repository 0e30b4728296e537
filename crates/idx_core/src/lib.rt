//! What every calculus of the compiler has: places in a text, want of memory, 64-bit operations, and binders by number.
#![tactic(auto)]

mod arith;
mod bound;
mod memory;
mod names;
mod salt;
mod scoped;
mod span;

pub use arith::{Op, compute};
pub use bound::{deeper, index_below};
pub use memory::{OutOfMemory, sum};
pub use names::Names;
pub use salt::Salt;
pub use scoped::Scoped;
pub use span::Span;
