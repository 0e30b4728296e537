// What the forms of a term bind.
ghost use Rattle.std.specs.Prelude.{◌≤◌};

use f_terms::FType;

/// What a form binds: a value; a function, itself and its argument; a type name; a type name, and a value inside of it.
#[derive(Drop)]
pub(crate) enum Bound<'a> {
    Value(FType),
    Function(&'a FType, &'a FType),
    TypeName,
    Opened(FType),
}

/// It, with the byte at which the form begins, and how many type names are around the form.
#[derive(Drop)]
pub(crate) struct Found<'a> {
    pub(crate) at: u64,
    pub(crate) names: u64,
    pub(crate) bound: Bound<'a>,
    ghost few: { names ≤ 4294967296 },
}
