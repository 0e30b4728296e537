// What a walk along nodes has written.
use page_core::Pieces;
use std::alloc::Global;
use std::collections::VecDeque;

// How many type names are around a place, and how far its lines are indented.
#[derive(Clone, Copy)]
pub struct Scope {
    pub types: u64,
    pub indent: u64,
}

// A code that is open, or the main term, by pieces: its text so far, the values that wait, the last first, whether the
// text ends in a call that waits for its arguments, and the scopes of the second branches that are still to come.
#[derive(Drop)]
pub struct Body {
    pub text: u64,
    pub values: VecDeque<u64>,
    pub called: bool,
    pub scope: Scope,
    pub branches: VecDeque<Scope>,
}

// All pieces, one of them without bytes, the body that is written, and the bodies around it.
#[derive(Drop)]
pub struct Page {
    pub alloc: Global,
    pub pieces: Pieces,
    pub empty: u64,
    pub body: Body,
    pub around: VecDeque<Body>,
}
