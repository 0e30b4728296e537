// The types of what declarations name are those of typing.
ghost use Rattle.let_types.specs.Laws.{ClosedTypes, CpsTypes, HoistedTypes};

/// What a typed declaration of the calculus in continuation-passing style names has the type that is computed for it.
pub fn cps_types_law()
    ensures { CpsTypes }
{}

/// So it is of a closed term.
pub fn closed_types_law()
    ensures { ClosedTypes }
{}

/// And of a hoisted term.
pub fn hoisted_types_law()
    ensures { HoistedTypes }
{}
