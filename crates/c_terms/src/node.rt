// Closed terms as streams of nodes.
use calc_core::CoreType as CType;
use idx_core::Op;

/// A node of a closed term: operands stand before what takes them. `level` counts the names in scope, and what binds
/// binds that level.
#[derive(Drop)]
pub enum CNode {
    /// A variable, by its level: 0 is the outermost name.
    Var(u64),
    Int(i64),
    /// A tuple of the so many values before it.
    Tuple(u64),
    /// A code: its body follows, up to its end. In the body level 0 is the code itself, and its arguments are the next.
    Code { owes: u64, args: Vec<CType> },
    /// The body of a code ends.
    End,
    /// The code before it, applied to types.
    Apply(Vec<CType>),
    /// The value before it, as a package.
    Pack { hidden: CType, shape: CType },
    /// The value before it is named.
    Name(u64),
    /// A field of the tuple before it is named; fields count from 1.
    Proj { level: u64, field: u64 },
    /// The result of an operation on the two values before it is named.
    Arith { level: u64, op: Op },
    /// What the package before it holds is named, and its hidden type.
    Unpack(u64),
    /// A new cell that holds the value before it is named.
    Cell(u64),
    /// What the cell before it holds is named.
    Get(u64),
    /// The cell, the first of the two values before it, is set to the second; the empty tuple is named.
    Set(u64),
    /// A call of the code before it: so many arguments follow, and the term ends.
    Call { types: Vec<CType>, count: u64 },
    /// A test of the value before it: the term where it is zero follows, and then `Else` and the other term.
    If0,
    /// The second term of a test follows.
    Else,
    /// The term ends with the value before it.
    Halt,
}
