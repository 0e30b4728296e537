// Words of registers, as they are shown.

/// The word of a register, without types: an integer, the address of a tuple, or the number of a block.
#[derive(Clone, Copy, Debug, PartialEq, Eq, Drop)]
pub enum Shown {
    Int(i64),
    Tuple(u64),
    Label(u64),
}
