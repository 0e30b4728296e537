// What the words of a command line come to.

use crate::form::Form;
use std::error::Error;
use std::fmt;

/// A command and its values (own choice). The names of files are as they stand among the words.
#[derive(Clone, Copy, Debug, PartialEq, Eq, Drop)]
pub enum Command<'a> {
    /// `compile IN OUT`: compiles the source text of one file into the assembly text of another.
    Compile {
        input: &'a str,
        output: &'a str,
    },
    /// `compile --registers K IN OUT`: the same, with an assembly text that uses the registers 1 to K alone.
    CompileWithin {
        input: &'a str,
        output: &'a str,
        registers: u64,
    },
    /// `check IN`: checks the assembly text of a file.
    Check {
        input: &'a str,
    },
    /// `run IN --fuel N`: runs the assembly text of a file for a number of instructions.
    Run {
        input: &'a str,
        fuel: u64,
    },
    /// `typeof IN`: shows the type of the source text of a file.
    Typeof {
        input: &'a str,
    },
    /// `eval IN --turns N`: evaluates the source text of a file within a number of turns.
    Eval {
        input: &'a str,
        turns: u64,
    },
    /// `gen --seed N OUT`: writes the source of a seed to a file, after all the work of the other commands on it.
    Gen {
        seed: u64,
        output: &'a str,
    },
    /// `upgrade IN OUT`: writes the program of the assembly text of one file to another, in the newest version of the
    /// language.
    Upgrade {
        input: &'a str,
        output: &'a str,
    },
    /// `trace IN --from A --to B`: runs the assembly text of a file for a number of instructions, and shows its states
    /// from another number on.
    Trace {
        input: &'a str,
        from: u64,
        to: u64,
    },
    /// `show IN --form F [--types]`: shows a form of the program of the source text of a file.
    Show {
        input: &'a str,
        form: Form,
    },
    /// `explain IN`: shows what is wrong with the source or assembly text of a file.
    Explain {
        input: &'a str,
    },
    /// `cost IN --fuel N`: runs the assembly text of a file for a number of instructions, and shows what the run cost.
    Cost {
        input: &'a str,
        fuel: u64,
    },
    /// `listing IN`: shows the assembly text of a file with the types of its registers.
    Listing {
        input: &'a str,
    },
    /// `types IN`: shows what the forms of the source text of a file bind, with the types.
    Types {
        input: &'a str,
    },
    /// `native [--heap BYTES] IN OUT`: writes an executable file of the assembly text of one file to another, with a
    /// heap of so many bytes.
    Native {
        input: &'a str,
        output: &'a str,
        heap: u64,
    },
    /// `native --listing [--heap BYTES] IN`: shows the instructions of that executable file.
    Disassembly {
        input: &'a str,
        heap: u64,
    },
}

/// Why words come to no command.
#[derive(Debug, Drop)]
pub enum NoCommand {
    /// They are none. The text for the user is `clap`'s: what is wrong, or the help that was asked for.
    Usage(String),
    /// Memory was wanted and not had.
    Memory,
}

impl fmt::Display for NoCommand {
    ghost use Rattle.std.specs.Prelude.{Some};
    ghost use Rattle.talc_words.specs.Shown.{shown};

    ghost output = { λ n. Some (shown n) };

    fn fmt<W: fmt::Write>(&self, f: &mut fmt::Formatter<W>) -> fmt::Result {
        match self {
            NoCommand::Usage(text) => write!(f, "{text}"),
            NoCommand::Memory => write!(f, "out of memory"),
        }
    }
}

impl Error for NoCommand {}
