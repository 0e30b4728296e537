// What closure conversion keeps.
ghost use Rattle.k_terms.specs.Laws.{NeverStuck};
ghost use Rattle.c_laws.specs.Laws.{MeaningKept, TypesKept, ReachKept, FitsKept, BoundKept, CloseIsScoped};
ghost use Rattle.c_laws.specs.Laws.{TypedIsClosed};
ghost use Rattle.c_laws.specs.Laws.{CloseTranslates};

use k_terms::laws::never_stuck_law;

/// Within any number of calls the converted program ends as the one before, and enters the same codes.
pub fn meaning_law()
    ensures { MeaningKept }
{
    never_stuck_law();
}

/// Types are kept, with four more in reach.
pub fn types_law()
    ensures typed { TypesKept }
    ensures reach { ReachKept }
{}

/// The bound of programs is kept.
pub fn bound_law()
    ensures fits { FitsKept }
    ensures bound { BoundKept }
{}

/// Names are in scope, before and after.
pub fn scope_law()
    ensures before { TypedIsClosed }
    ensures after { CloseIsScoped }
{}

/// The function gives a translation by the rules.
pub fn translation_law()
    ensures { CloseTranslates }
{}
