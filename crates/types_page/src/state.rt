// What is there while a term is gone through.

use crate::bound::Found;
use f_terms::FType;

/// A value name in scope: its type, and how many type names were around it.
#[derive(Drop)]
pub(crate) struct Name {
    pub(crate) ty: FType,
    pub(crate) around: u64,
}

/// What was found; the value names in scope and the types of parts that wait for their form, each with the last one on
/// top; how many type names are around.
#[derive(Drop)]
pub(crate) struct State<'a> {
    pub(crate) found: Vec<Found<'a>>,
    pub(crate) scope: Vec<Name>,
    pub(crate) types: Vec<FType>,
    pub(crate) around: u64,
}
