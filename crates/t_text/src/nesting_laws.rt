// What the definition of a program's nesting says.
ghost use Rattle.t_text.specs.NestingLaws.{CountsOpen, KeepsByNesting};

/// A program's nesting is the greatest number of constructs that are open at a token of a text that stands for it,
/// whatever text that is.
pub fn counts_open()
    ensures { CountsOpen }
{}

/// A text that stands for a program keeps the limit on open constructs exactly where the program's nesting is within
/// it.
pub fn keeps_by_nesting()
    ensures { KeepsByNesting }
{}
