// What the definition of a line says in all.
ghost use Rattle.f_grammar.specs.Machine.{table};
ghost use Rattle.talc_wanted.specs.Wanted.{TakesWhatGoesOn, UnexpectedIsTold, CutShortIsTold, FewBytes};
ghost use Rattle.talc_wanted.specs.SourceWords.{source_kinds};
ghost use Rattle.talc_wanted.specs.SourceText.{OneLine, AllAreTold, AllAreWorded};

/// The kinds of tokens that are told are exactly those with which some expression of the grammar goes on there.
pub fn takes_what_goes_on()
    ensures { TakesWhatGoesOn table }
{}

/// Each token is told as its kind is, so no kind of tokens is left out.
pub fn all_are_told()
    ensures { AllAreTold }
{}

/// The words for a kind are what is cut into one token of that kind, but for names and numbers, which have words of
/// their own; and no kind has a wider one, by which it would be left out.
pub fn all_are_worded()
    ensures { AllAreWorded }
{}

/// There is a line at each first unexpected token of a text.
pub fn unexpected_is_told()
    ensures { UnexpectedIsTold table source_kinds }
{}

/// There is a line at the end of each text that is cut short.
pub fn cut_short_is_told()
    ensures { CutShortIsTold table source_kinds }
{}

/// No line has more than 100 bytes.
pub fn few_bytes()
    ensures { FewBytes table source_kinds }
{}

/// A place in a text has one line.
pub fn one_line()
    ensures { OneLine }
{}
