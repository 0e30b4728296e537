// What is around a term, and what a walk over its nodes keeps.

use a_scope::Entry;
use a_terms::AProgram;
use std::alloc::Global;

/// How many type names and value names are around a term, its level, and whether it is the second branch of an `if0`.
#[derive(Clone, Copy, Drop)]
pub(crate) struct Scope {
    pub(crate) types: u64,
    pub(crate) names: u64,
    pub(crate) level: u64,
    pub(crate) second: bool,
}

/// A program that is written, and whether with the types of what its `let`s bind.
#[derive(Clone, Copy)]
pub(crate) struct Source<'a> {
    pub(crate) alloc: Global,
    pub(crate) program: &'a AProgram,
    pub(crate) typed: bool,
}

/// The variables in scope, and what is around the terms that are still to come, the next one last.
#[derive(Drop)]
pub(crate) struct Walk<'a> {
    pub(crate) vars: Vec<Entry<'a>>,
    pub(crate) scopes: Vec<Scope>,
}
