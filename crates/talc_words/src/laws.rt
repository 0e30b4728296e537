// What the definition of a command says in all.
ghost use Rattle.talc_words.specs.Laws.{CommandWhereTaken, CommandsAreInBounds};

/// Words are a command exactly where `clap`'s rules find no error in them by the description of the command line, a
/// form that they ask for has one of the six names, and can be shown with types where they are asked for, a heap is a
/// multiple of 4096 bytes, and `native` has either OUT or `--listing`: then each value of the command is there, and a
/// number is one.
pub fn command_where_taken()
    ensures { CommandWhereTaken }
{}

/// A number of registers that words ask for is 8 at least, and a heap has from 64 KiB to 1 TiB, a multiple of 4096
/// bytes.
pub fn numbers_are_in_bounds()
    ensures { CommandsAreInBounds }
{}
