// Laws of hoisted programs.

ghost use Rattle.h_terms.specs.Laws.{HNeverStuck, HTypedIsAny, HWithinIsTyped, HFitsMore};

/// A typed program is never stuck.
pub fn h_never_stuck_law()
    ensures { HNeverStuck }
{}

/// Typing is typing with the property that every type has.
pub fn h_typed_is_any_law()
    ensures { HTypedIsAny }
{}

/// Typing within bounds is typing.
pub fn h_within_is_typed_law()
    ensures { HWithinIsTyped }
{}

/// A program within bounds is within any larger ones.
pub fn h_fits_more_law()
    ensures { HFitsMore }
{}
