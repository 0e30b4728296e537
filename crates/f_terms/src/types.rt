// Types of the source.

/// A type of the source calculus, its variables by number: 0 is the innermost binder.
#[derive(Drop)]
pub enum FType {
    Int,
    Var(u64),
    Arrow(Box<FType>, Box<FType>),
    All(Box<FType>),
    Tuple(Vec<FType>),
    /// A type that hides one: it binds the name of the hidden type.
    Exists(Box<FType>),
    /// Cells that hold values of a type.
    Ref(Box<FType>),
}
