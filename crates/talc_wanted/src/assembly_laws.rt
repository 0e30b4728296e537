// What the definition of a line says in all.
ghost use Rattle.t_text.specs.GrammarTable.{table};
ghost use Rattle.talc_wanted.specs.Wanted.{TakesWhatGoesOn, UnexpectedIsTold, CutShortIsTold, FewBytes};
ghost use Rattle.talc_wanted.specs.AssemblyWords.{assembly_kinds};
ghost use Rattle.talc_wanted.specs.AssemblyText.{OneLine, AllAreTold, AllAreWorded};

/// The kinds of tokens that are told are exactly those with which some program of the grammar goes on there.
pub fn takes_what_goes_on()
    ensures { TakesWhatGoesOn table }
{}

/// Each token is told as its kind is, so no kind of tokens is left out, but for `~0` in place of a flag.
pub fn all_are_told()
    ensures { AllAreTold }
{}

/// The words for a kind are what is cut into one token of that kind, but for names, registers and numbers of any value,
/// which have words of their own; and no kind has a wider one but the numbers of one value, which are left out where
/// any number may stand.
pub fn all_are_worded()
    ensures { AllAreWorded }
{}

/// There is a line at each first unexpected token of a text.
pub fn unexpected_is_told()
    ensures { UnexpectedIsTold table assembly_kinds }
{}

/// There is a line at the end of each text that is cut short.
pub fn cut_short_is_told()
    ensures { CutShortIsTold table assembly_kinds }
{}

/// No line has more than 100 bytes.
pub fn few_bytes()
    ensures { FewBytes table assembly_kinds }
{}

/// A place in a text has one line.
pub fn one_line()
    ensures { OneLine }
{}
