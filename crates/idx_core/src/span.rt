// Places in a text.

/// The bytes of a text from `start` up to `end`, which is the place after the last; both count from 0.
#[derive(Clone, Copy, Debug, PartialEq, Eq)]
pub struct Span {
    pub start: u64,
    pub end: u64,
}
