//! The grammar of the source: which text stands for which term, and the reading of types and terms, names left aside.
#![tactic(auto)]

mod begin;
mod cursor;
mod forest;
mod frame;
mod heads;
mod params;
mod part;
mod put;
mod raw;
mod reader;
mod resume;
mod term;
mod text_laws;
mod types;

pub use cursor::{OPEN, Stopped, Wanted, expect, opened, peek, take};
pub use forest::NODES;
pub use params::{FoundParameter, parameter};
pub use part::{FoundTerm, Kept};
pub use raw::{RawNode, RawShape, RawTerm, RawType};
pub use reader::whole_term;
pub use text_laws::{
    closed_terms, no_fault_where_read, no_term_where_faulty, one_fault, one_term, same_nodes,
    term_or_fault,
};
pub use types::{FoundType, Quantifier, whole_type};
