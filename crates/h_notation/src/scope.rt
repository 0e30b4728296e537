// What is around a term, and what a walk over its nodes keeps.

use h_terms::HBlock;
use let_types::Named;
use std::alloc::Global;

/// How many type names and value names are around a term, its level, and whether it is the second branch of an `if0`.
#[derive(Clone, Copy, Drop)]
pub(crate) struct Scope {
    pub(crate) types: u64,
    pub(crate) names: u64,
    pub(crate) level: u64,
    pub(crate) second: bool,
}

/// The blocks of a program that is written, and whether with the types of what its `let`s bind.
#[derive(Clone, Copy)]
pub(crate) struct Source<'a> {
    pub(crate) alloc: Global,
    pub(crate) blocks: &'a [HBlock],
    pub(crate) typed: bool,
}

/// The names in scope, with their types if types are shown, and what is around the terms that are still to come, the
/// next one last.
#[derive(Drop)]
pub(crate) struct Walk {
    pub(crate) names: Vec<Named>,
    pub(crate) scopes: Vec<Scope>,
}
