// One piece.

/// Bytes, or two pieces by their numbers.
#[derive(Drop)]
pub(crate) enum Piece {
    Bytes(Vec<u8>),
    Joined(u64, u64),
}
