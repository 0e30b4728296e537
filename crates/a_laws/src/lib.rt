//! Allocation on plain trees, and what it keeps.
#![tactic(auto)]

ghost use Rattle.a_laws.specs.Back.{PutsBack, Settled};
ghost use Rattle.a_laws.specs.Mallocs.{MallocsAreAsked};
ghost use Rattle.a_laws.specs.OneAllocation.{OneAllocation};
ghost use Rattle.a_laws.specs.Stands.{AllocStands};
ghost use Rattle.a_laws.specs.Statements.{AllocFits, AllocKept, AllocTypesKept, StandingMeansTheSame};

/// A typed program and its allocation end alike within each number of calls, and enter the same blocks.
pub fn meaning_is_kept()
    ensures { AllocKept }
{
    h_terms::laws::h_never_stuck_law();
    allocation_stands_for_its_program();
}

/// A typed program and whatever stands for it end alike within each number of calls, and enter the same blocks.
pub fn standing_means_the_same()
    ensures { StandingMeansTheSame }
{
    h_terms::laws::h_never_stuck_law();
}

/// The allocation of a typed program is typed.
pub fn types_are_kept()
    ensures { AllocTypesKept }
{
    calc_core::laws::words_law();
    c_terms::laws::put_law();
    c_terms::laws::one_by_one_law();
    h_terms::laws::h_typed_is_any_law();
}

/// The allocation of a program within bounds is within bounds.
pub fn bounds_are_kept()
    ensures { AllocFits }
{
    calc_core::laws::words_law();
    c_terms::laws::put_law();
    c_terms::laws::one_by_one_law();
}

/// The allocation of a typed program stands for it.
pub fn allocation_stands_for_its_program()
    ensures { AllocStands }
{
    types_are_kept();
}

/// What stands for a program has one malloc for each of its tuples that are no constants, each of its cells and each of
/// its assignments.
pub fn mallocs_are_asked()
    ensures { MallocsAreAsked }
{}

/// What stands for a program is one program, its data and their types too, but for the types of its mallocs, which
/// typing tells, and for which of equal data tuples is named where.
pub fn one_program_stands_for_each()
    ensures { OneAllocation }
{}

/// What stands for a program with no cell gives, its tuples and data put back and its flags dropped, that program,
/// where in a tuple of constants a variable counts as the constant that it names.
pub fn tuples_are_put_back()
    ensures { PutsBack }
{}

/// That is the program itself, if its tuples of constants hold no variables.
pub fn plain_programs_are_settled()
    ensures { Settled }
{}
