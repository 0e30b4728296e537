// What is at odds in a fault: what a type had to be, and the type that is there.
ghost use Rattle.std.specs.Prelude.{◌≡◌};
ghost use Rattle.f_terms.specs.Read.{tree};
ghost use Rattle.f_terms.specs.Mismatch as plain;
ghost use Rattle.f_check.specs.Told.{read, wish};

use f_terms::FType;

/// What the type of a part had to be.
#[derive(Drop)]
pub enum Wanted {
    /// This type.
    Exactly(FType),
    /// A function's type: what stands there is applied.
    Function,
    /// A polymorphic type: what stands there is applied to a type.
    Polymorphic,
    /// A tuple's type: what stands there is projected.
    Tuple,
    /// A tuple's type with the field that is projected.
    Field,
    /// An existential type: what stands there is opened, or is the shape of a `pack`.
    Package,
    /// A reference's type: what stands there is read or assigned.
    Reference,
    /// A type without the innermost type name, which is that of an `open`.
    Outside,
}

/// What was wanted of a type, and the type that was found, under so many type names.
#[derive(Drop)]
pub struct Mismatch {
    /// What the type had to be.
    pub wanted: Wanted,
    /// The type that was found.
    pub found: FType,
    /// How many type names are around both.
    pub names: u64,
}

// Such a type was wanted, and the other is there.
pub(crate) fn odds(wanted: Wanted, found: FType, names: u64) -> Option<Mismatch>
    ensures { read result ≡ plain.odds names (wish wanted) (tree found) }
{
    Some(Mismatch {
        wanted,
        found,
        names,
    })
}
