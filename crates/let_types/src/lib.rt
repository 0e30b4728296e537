//! The types of what the declarations of the inner calculi name, and the notation of these types.
#![tactic(auto)]

mod closed;
mod closures;
mod declaring;
mod hoisted;
mod laws;
mod named;
mod type_texts;
mod walks;

pub use closed::{Known, level_bound};
pub use declaring::{declare, types_after};
pub use hoisted::types_of_parts;
pub use laws::{closed_types_law, cps_types_law, hoisted_types_law};
pub use named::{Named, field_of_name, held_of_name, opened_of_name, show, variable};
pub use type_texts::{
    before_packed, behind_packed, types_applied, write_any, write_plain_types, write_type,
    write_types,
};
pub use walks::{apply_type, shift_type};
