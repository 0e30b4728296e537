// Types of the calculi with codes: of the one in continuation-passing style, and of the closed and the hoisted one.

/// A type, its variables by number: 0 is the innermost binder. A code takes `owes` types and then values.
#[derive(Drop)]
pub enum CoreType {
    Int,
    Var(u64),
    Tuple(Vec<CoreType>),
    Code { owes: u64, args: Vec<CoreType> },
    /// A package, which hides one type.
    Exists(Box<CoreType>),
    /// A cell, which can be set.
    Ref(Box<CoreType>),
}
