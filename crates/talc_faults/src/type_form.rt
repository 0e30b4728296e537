// The form of a type.

/// The form of the type that is found at a fault of a source text.
#[derive(Clone, Copy, Debug, PartialEq, Eq, Drop)]
pub enum Form {
    /// No type is told of.
    Untold,
    /// `int`.
    Integer,
    /// A type variable.
    Variable,
    /// `T1 -> T2`.
    Function,
    /// `all a. T`.
    Polymorphic,
    /// `<T1, .., Tn>`.
    Tuple,
    /// `some a. T`.
    Package,
    /// `ref T`.
    Reference,
}
