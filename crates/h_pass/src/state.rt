// The state of a walk.
use c_terms::CType;
use h_terms::{HBlock, HNode, HPart};
use std::collections::VecDeque;

// A code that is open, or the main term: its label, its nodes, the parts of the next node, the call that waits for its
// arguments, and the names in scope of each of its terms to come.
#[derive(Drop)]
pub struct Open {
    pub own: Option<u64>,
    pub nodes: Vec<HNode>,
    pub parts: Vec<HPart>,
    pub call: Option<Vec<CType>>,
    pub depths: VecDeque<u64>,
}

// A walk along nodes: the blocks of the codes that were begun, what the walk is in, and what is open around it.
#[derive(Drop)]
pub struct Walk {
    pub blocks: Vec<HBlock>,
    pub current: Open,
    pub outer: VecDeque<Open>,
}
