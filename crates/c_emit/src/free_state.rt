// The states of the walks from the last node to the first.
use c_rules::Levels;
use std::collections::VecDeque;

/// What is found of a code: its free variables, and whether its own name is used.
#[derive(Drop)]
pub struct Found {
    pub kept: Levels,
    pub own: bool,
}

/// The levels met in the code that is being read, in those around it, and what was found of the codes that were read.
#[derive(Drop)]
pub struct Sweep {
    pub current: Vec<u64>,
    pub outer: VecDeque<Vec<u64>>,
    pub found: VecDeque<Found>,
}

/// The same of type variables.
#[derive(Drop)]
pub struct TSweep {
    pub current: Vec<u64>,
    pub outer: VecDeque<Vec<u64>>,
    pub found: VecDeque<Levels>,
}
