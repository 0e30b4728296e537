//! Types of the typed assembly language by number, each once.
#![tactic(auto)]

mod bounds;
mod fitting;
mod inserting;
mod made;
mod memo;
mod numbering;
mod pairs;
mod putting;
mod shape;
mod shifting;
mod shifts;
mod trees;
mod types;

pub use shape::Shape;
pub use types::Types;
