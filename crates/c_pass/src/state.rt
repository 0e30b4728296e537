// The state of the walk that finds out types.
use c_emit::{Info, Note, Side};
use c_rules::Levels;
use k_terms::KType;
use std::collections::VecDeque;

/// What the walks from the last node have found of a code: its free variables, whether its own name is used, and the
/// type variables that occur in it.
#[derive(Drop)]
pub struct Clue {
    pub kept: Levels,
    pub own: bool,
    pub types: Levels,
}

/// The type of a variable, with the number of type variables where it was bound.
#[derive(Drop)]
pub struct Bound {
    pub ty: KType,
    pub depth: u64,
}

/// A code's node: the level of its own name, the number of type variables around it, how many types it takes, and the
/// types of its arguments.
#[derive(Clone, Copy)]
pub struct CodeNode<'a> {
    pub level: u64,
    pub depth: u64,
    pub owes: u64,
    pub args: &'a [KType],
}

/// What a code says of itself: the number of type variables around it, how many types it takes, the types of its
/// arguments, and its own type.
#[derive(Clone, Copy)]
pub struct Header<'a> {
    pub depth: u64,
    pub owes: u64,
    pub args: &'a [KType],
    pub own_type: &'a KType,
}

/// The type variables of what is around a code, and those of the code.
#[derive(Clone, Copy)]
pub struct Sides<'a> {
    pub around: &'a Side,
    pub inside: &'a Side,
}

/// The types of the variables by level, the type variables of the code where the walk stands and of those around it,
/// what was found of the codes to come, and what is known so far.
#[derive(Drop)]
pub struct Knowledge {
    pub bounds: Vec<Bound>,
    pub side: Side,
    pub outer: VecDeque<Side>,
    pub clues: VecDeque<Clue>,
    pub infos: VecDeque<Info>,
    pub notes: VecDeque<Note>,
}
