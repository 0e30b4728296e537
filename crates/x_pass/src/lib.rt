//! The pass from word code to code of the processor.
#![tactic(auto)]

mod blocks;
mod branch;
mod emission;
mod fine;
mod home;
mod layout;
mod program;
mod straight;

pub use branch::{emit, put_end, put_instr};
pub use emission::emit_block;
pub use fine::{are_fine, is_block};
pub use home::Home;
pub use layout::{Labels, block_size, labels_of, place_at};
pub use program::code_of;
pub use straight::put_straight;
