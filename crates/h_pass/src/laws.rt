// What hoisting keeps, on trees.
ghost use Rattle.h_pass.specs.Statements.{HoistIsBack, HoistKept, HoistTypesKept, HoistReach, HoistFits};
ghost use Rattle.h_pass.specs.Statements.{ClosedNeverStuck, HoistedMeansTheSame, OneHoisting};
ghost use Rattle.h_pass.specs.Statements.{BoundIsSmall, ScopedIsBack, NodesKept};

use c_terms::laws::{typed_is_any_law, typed_is_scoped_law, within_is_typed_law};
use h_terms::laws::{h_never_stuck_law, h_typed_is_any_law};

/// The blocks are the codes of the closed term, one for one and in order; each block's code put back for its label
/// gives that term; and the labels stand in the order of its text.
pub fn hoist_is_back_law()
    ensures { HoistIsBack }
{
    typed_is_scoped_law();
}

/// Within any number of calls the hoisted program ends as the closed one does, and enters the same codes.
pub fn hoist_meaning_law()
    ensures { HoistKept }
{}

/// Whatever is hoisted by the rule from a typed closed term is the hoisted form of that term.
pub fn one_hoisting_law()
    ensures { OneHoisting }
{}

/// Hoisting keeps typing, adds nothing to the reach of types, and keeps each bound.
pub fn hoist_types_law()
    ensures types { HoistTypesKept }
    ensures reach { HoistReach }
    ensures fits { HoistFits }
{
    typed_is_any_law();
    h_typed_is_any_law();
}

/// Whatever is hoisted by the rule from a typed closed program is typed, and within any number of calls it ends as that
/// does and enters the same codes.
pub fn hoisted_means_the_same_law()
    ensures { HoistedMeansTheSame }
{
    one_hoisting_law();
    hoist_types_law();
    hoist_meaning_law();
}

/// A typed closed term is never stuck.
pub fn closed_never_stuck_law()
    ensures { ClosedNeverStuck }
{
    h_never_stuck_law();
    hoist_meaning_law();
    hoist_types_law();
}

// The names of a program's term are in scope, and its bodies are small.
pub(crate) fn bound_is_small_law()
    ensures { BoundIsSmall }
{
    within_is_typed_law();
    typed_is_scoped_law();
}

// What holds of each such term.
pub(crate) fn scoped_is_back_law()
    ensures back { ScopedIsBack }
    ensures nodes { NodesKept }
{}
