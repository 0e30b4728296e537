// Terms that were read.

use crate::RawTerm;
use idx_core::Span;

/// A term that was read: the number of its node, where it is kept, its place without the parentheses around it, and
/// where its tokens start and end.
#[derive(Clone, Copy, Drop)]
pub(crate) struct Part {
    pub node: u64,
    pub place: Span,
    pub start: u64,
    pub end: u64,
}

/// A term of at most 100000 nodes, or the place of a larger one.
#[derive(Drop)]
pub enum Kept {
    Term(RawTerm),
    TooMany(Span),
}

/// A term that was read, and the number of the token after it.
#[derive(Drop)]
pub struct FoundTerm {
    pub kept: Kept,
    pub next: usize,
}
