// What the definition of a text's term says in all.
ghost use Rattle.f_grammar.specs.Text.{OneTerm, NoFaultWhereRead, NoTermWhereFaulty, TermOrFault};
ghost use Rattle.f_grammar.specs.Text.{OneFault, ClosedTerms, SameNodes};

/// No text stands for two terms.
pub fn one_term()
    ensures { OneTerm }
{}

/// A text that stands for a term within the limits has no fault.
pub fn no_fault_where_read()
    ensures { NoFaultWhereRead }
{}

/// A text whose first fault is not that of a limit stands for no term.
pub fn no_term_where_faulty()
    ensures { NoTermWhereFaulty }
{}

/// Each text stands for a term within the limits, or has a first fault.
pub fn term_or_fault()
    ensures { TermOrFault }
{}

/// The tree of a text's tokens has as many nodes as the term that the text stands for.
pub fn same_nodes()
    ensures { SameNodes }
{}

/// Two first faults of one text are equal.
pub fn one_fault()
    ensures { OneFault }
{}

/// A text stands for closed terms only: each name has a binder.
pub fn closed_terms()
    ensures { ClosedTerms }
{}
