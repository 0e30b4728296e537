// What the definition of a text's tokens says in all.
ghost use Rattle.f_lexer.specs.Source.{OneCut, NoFaultWhereCut, CutOrFault, OneTokenFault};

/// No text is cut into tokens in two ways.
pub fn one_cut()
    ensures { OneCut }
{}

/// A text that is cut into tokens has no fault in them.
pub fn no_fault_where_cut()
    ensures { NoFaultWhereCut }
{}

/// Each text is cut into tokens, or has a first fault in them.
pub fn cut_or_fault()
    ensures { CutOrFault }
{}

/// Two first faults of the tokens of one text are equal.
pub fn one_token_fault()
    ensures { OneTokenFault }
{}
