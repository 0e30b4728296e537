// What a label names.

/// What a label names: the block, or the data tuple, with this number. Both are counted from 0, each by itself.
#[derive(Clone, Copy, Debug, Drop)]
pub enum Target {
    Block(u64),
    Data(u64),
}
