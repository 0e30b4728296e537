// Laws of the closed calculus.

ghost use Rattle.c_terms.specs.Laws.{TypedIsAny, WithinIsTyped, FitsMore, CPutIsPut};
ghost use Rattle.c_terms.specs.Laws.{TypedIsScoped, ReadsBack, OneTerm};
ghost use Rattle.c_terms.specs.Puts.{OneByOne};

/// Typing is typing with the property that every type has.
pub fn typed_is_any_law()
    ensures { TypedIsAny }
{}

/// Typing within bounds is typing.
pub fn within_is_typed_law()
    ensures { WithinIsTyped }
{}

/// Who keeps to a bound keeps to any larger one.
pub fn fits_more_law()
    ensures { FitsMore }
{}

/// A type put for one variable, as types are put one after the other, is put.
pub fn put_law()
    ensures { CPutIsPut }
{}

/// Types put one after the other are put at once.
pub fn one_by_one_law()
    ensures { OneByOne }
{}

/// The names of a typed term are in scope.
pub fn typed_is_scoped_law()
    ensures { TypedIsScoped }
{}

/// The nodes of a term in scope are read back, and so they are of one term.
pub fn read_back_law()
    ensures back { ReadsBack }
    ensures one { OneTerm }
{}
