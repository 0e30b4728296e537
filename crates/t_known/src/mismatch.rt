// What is at odds in a fault of types.
use t_types::TType;

/// What is at odds in a fault of types, where so many type names are in scope.
#[derive(Drop)]
pub enum Mismatch {
    /// A value has another type than the one that is wanted: T13, and T15 where a package is given a package type.
    Types {
        wanted: TType,
        found: TType,
        names: u64,
    },
    /// A package is given a type that is no package type: T15.
    NoPackage {
        found: TType,
        names: u64,
    },
    /// The first register of the target's file, in its order, that has no type or one that does not fit: T18.
    Register {
        register: u64,
        wanted: TType,
        found: Option<TType>,
        names: u64,
    },
}
