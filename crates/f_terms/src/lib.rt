//! The source calculus: its types and terms, and the faults of a source text.
#![tactic(auto)]

mod admission;
mod cells;
mod copying;
mod count;
mod fault;
mod laws;
mod make;
mod node;
mod shift;
mod stack;
mod step;
mod table;
mod term;
mod types;

pub use admission::admit;
pub use cells::has_cells;
pub use copying::copy;
pub use count::{depth, eq, size};
pub use fault::{Code, FFault};
pub use laws::{
    evaluation_keeps_its_rules, evaluation_leaves_at_most_its_turns, more_turns_keep_the_value,
    no_fault_beside_a_pass, one_answer, one_fault, one_mismatch, one_type, packages_do_not_show,
    pass_or_fault, passes_where_typed, programs_are_never_stuck, put_under_a_binder, puts_exchange,
    stores_only_grow,
};
pub use node::{FNode, FParts, FShape, FTerm};
pub use stack::{FStack, FStep};
pub use table::{typed_node, types_aside};
pub use types::FType;
