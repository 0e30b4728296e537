// What the definition of an assembly text's tokens says in all.
ghost use Rattle.t_text.specs.Cut.{AtMostOneCut, AtMostOneTokenFault, NoTokenFaultWhereCut};

/// No text is cut into tokens in two ways.
pub fn at_most_one_cut()
    ensures { AtMostOneCut }
{}

/// Two first faults of the tokens of one text are equal.
pub fn at_most_one_token_fault()
    ensures { AtMostOneTokenFault }
{}

/// A text that is cut into tokens has no fault in them.
pub fn no_token_fault_where_cut()
    ensures { NoTokenFaultWhereCut }
{}
