// Hoisted terms as flat lists of nodes.
use c_terms::CType;
use idx_core::Op;

/// A part of a value. A value is a list of parts, each after the parts that it is made of.
#[derive(Drop)]
pub enum HPart {
    /// A variable: 0 is the innermost name.
    Var(u64),
    Int(i64),
    /// The label of a block.
    Label(u64),
    /// A tuple of the so many values before it.
    Tuple(u64),
    /// The value before it, applied to types.
    Apply(Vec<CType>),
    /// The value before it, as a package.
    Pack { hidden: CType, shape: CType },
}

/// What a node is: a declaration, a choice or an end.
#[derive(Drop)]
pub enum HForm {
    /// Its value is named.
    Name,
    /// A field of its value is named; fields count from 1.
    Proj(u64),
    /// The result of an operation on its two values is named.
    Arith(Op),
    /// What the package, its value, holds is named, and its hidden type.
    Unpack,
    /// A new cell that holds its value is named.
    Cell,
    /// What the cell, its value, holds is named.
    Get,
    /// The cell, the first of its two values, is set to the second; the empty tuple is named.
    Set,
    /// A call of its first value with types, and with its other values.
    Call(Vec<CType>),
    /// A test of its value: two terms follow, the one where it is zero and the other.
    If0,
    /// The term ends with its value.
    Halt,
}

/// A node with the parts of its values. What follows a declaration stands next to it.
#[derive(Drop)]
pub struct HNode {
    pub form: HForm,
    pub values: Vec<HPart>,
}

/// A block takes types and values. Its label is its number, and its body may name each label.
#[derive(Drop)]
pub struct HBlock {
    pub owes: u64,
    pub args: Vec<CType>,
    pub body: Vec<HNode>,
}
