// Data tuples.

use crate::value::Value;
use idx_core::Span;
use t_types::TType;

/// A tuple that stands in the heap from the start: the place of its label, and its fields, each with the type that is
/// written for it and the place of its value.
#[derive(Drop)]
pub struct Data {
    pub name: Span,
    pub fields: Vec<(Value, TType, Span)>,
}
