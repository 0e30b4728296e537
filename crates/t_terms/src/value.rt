// Small values.

use t_types::TType;

/// What a small value begins with: a register, an integer, or a label, which is the number of a block or of a data
/// tuple.
#[derive(Clone, Copy, Debug, Drop)]
pub enum Base {
    Reg(u64),
    Int(i64),
    Label(u64),
    Data(u64),
}

/// A small value: a base applied to types (to none where the list is empty), or an existential package of the
/// type `shape`, which hides `hidden`.
#[derive(Drop)]
pub enum Value {
    Plain {
        base: Base,
        types: Vec<TType>,
    },
    Pack {
        hidden: Box<TType>,
        inner: Box<Value>,
        shape: Box<TType>,
    },
}
