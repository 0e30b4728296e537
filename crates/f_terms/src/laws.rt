// Laws of the source calculus, as functions with an empty body that callers cite.
ghost use Rattle.f_terms.specs.Laws.{PutsExchange, PutUnderABinder, OneType, PassesWhereTyped, NoFaultBesideAPass};
ghost use Rattle.f_terms.specs.Laws.{PassOrFault, OneFault, OneMismatch, KeepsRules, MoreTurnsKeepTheValue};
ghost use Rattle.f_terms.specs.Laws.{LeavesAtMost, OneAnswer, NeverStuck, StoreGrows, PackagesDoNotShow};

/// For i at most j, a put of u for i and then of v for j is a put of v, shifted, for j + 1 and then of u, with v put
/// into it, for i.
pub fn puts_exchange()
    ensures { PutsExchange }
{}

/// A put under a binder is a put of the type shifted once, for the next index.
pub fn put_under_a_binder()
    ensures { PutUnderABinder }
{}

/// A term has at most one type in a context.
pub fn one_type()
    ensures { OneType }
{}

/// Each check of a term holds exactly where the term is typed and its types keep the limits.
pub fn passes_where_typed()
    ensures { PassesWhereTyped }
{}

/// A term on which each check holds has no first fault.
pub fn no_fault_beside_a_pass()
    ensures { NoFaultBesideAPass }
{}

/// A closed term passes every check, or has a first fault.
pub fn pass_or_fault()
    ensures { PassOrFault }
{}

/// Two first faults of a term are equal, in code and place.
pub fn one_fault()
    ensures { OneFault }
{}

/// What is at odds in two first faults of a term is equal: these types, or that no two are.
pub fn one_mismatch()
    ensures { OneMismatch }
{}

/// Evaluation keeps its rules with no bound on how deep bodies are entered.
pub fn evaluation_keeps_its_rules()
    ensures { KeepsRules }
{}

/// What gives a value within some turns gives it within more, with as many more turns left and the same store.
pub fn more_turns_keep_the_value()
    ensures { MoreTurnsKeepTheValue }
{}

/// An evaluation leaves at most the turns that it was allowed.
pub fn evaluation_leaves_at_most_its_turns()
    ensures { LeavesAtMost }
{}

/// No cell of a store is lost.
pub fn stores_only_grow()
    ensures { StoreGrows }
{}

/// A term with each pack replaced by its part and each open by a let evaluates as before, with the same replaced in the
/// bodies of what it gives.
pub fn packages_do_not_show()
    ensures { PackagesDoNotShow }
{}

/// A term evaluates to one integer at most, whatever the turns.
pub fn one_answer()
    ensures { OneAnswer }
{}

/// A closed term of type `int` evaluates, within any number of turns, to an integer or is spent.
pub fn programs_are_never_stuck()
    ensures { NeverStuck }
{}
