// Terms as streams of nodes.
use calc_core::CoreType as KType;
use idx_core::Op;

/// A node of a term: operands stand before what takes them. `level` counts the names in scope, and what binds binds
/// that level; `ty` is the type of what it names; `depth` is how many type variables are in scope.
#[derive(Drop)]
pub enum KNode {
    /// A variable, by its level: 0 is the outermost name.
    Var(u64),
    Int(i64),
    /// A tuple of the so many values before it.
    Tuple(u64),
    /// A code: its body follows, up to its end. In the body `level` is the code itself, and its arguments are the next.
    Code {
        level: u64,
        depth: u64,
        owes: u64,
        args: Vec<KType>,
    },
    /// The body of a code ends.
    End,
    /// The value before it is named.
    Name {
        level: u64,
        ty: KType,
    },
    /// A field of the tuple before it is named; fields count from 1.
    Proj {
        level: u64,
        field: u64,
        ty: KType,
    },
    /// The result of an operation on the two values before it is named.
    Arith {
        level: u64,
        op: Op,
    },
    /// The value before it is named as a package.
    Pack {
        level: u64,
        depth: u64,
        hidden: KType,
        shape: KType,
    },
    /// What the package before it holds is named, and its hidden type.
    Unpack {
        level: u64,
        depth: u64,
        ty: KType,
    },
    /// A new cell that holds the value before it is named.
    Cell {
        level: u64,
        ty: KType,
    },
    /// What the cell before it holds is named.
    Get {
        level: u64,
        ty: KType,
    },
    /// The cell, the first of the two values before it, is set to the second; the empty tuple is named.
    Set {
        level: u64,
    },
    /// A call of the code before it: so many arguments follow, and the term ends.
    Call {
        level: u64,
        depth: u64,
        types: Vec<KType>,
        count: u64,
    },
    /// A test of the value before it: the term where it is zero follows, and then `Else` and the other term.
    If0,
    /// The second term of a test follows.
    Else {
        depth: u64,
    },
    /// The term ends with the value before it.
    Halt,
}
