//! Programs with frames and slots, in code.
#![tactic(auto)]

mod body;
mod emit;
mod homes;
mod split;
mod step;
mod types;
mod values;

pub use body::Body;
pub use emit::{NOWHERE, build, gather, put};
pub use homes::{Home, Homes};
pub use split::Split;
pub use step::{emit_end, emit_step};
pub use types::{high_part, spilled_file, spilled_type, spilled_types};
pub use values::{base_of, moved_base, spilled_value};
