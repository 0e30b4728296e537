//! The page on the types of a source text: each form that binds names, with their types, and the type of the whole.
#![tactic(auto)]

mod begin;
mod bind;
mod bound;
mod form;
mod join;
mod laws;
mod page;
mod part;
mod parts;
mod place;
mod stacks;
mod state;
mod task;
mod tasks;
mod types;
mod walk;
mod words;
mod writer;

pub use laws::one_binding;
pub use page::page_of;
