// How far the binding of names has come.

use crate::task::Task;
use f_terms::FStack;
use idx_core::Names;

/// What is still to be done, the next last; the value names and the type names that are in scope; and the terms that
/// were made.
#[derive(Drop)]
pub(crate) struct State<'a> {
    pub tasks: Vec<Task<'a>>,
    pub values: Names,
    pub types: Names,
    pub stack: FStack,
}
