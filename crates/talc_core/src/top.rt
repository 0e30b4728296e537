// The top call.
ghost use Rattle.std.specs.Prelude.{map, string_bytes};
ghost use Rattle.talc_words.specs.Command.{NumbersAreInBounds};
ghost use Rattle.talc_words.specs.Reads.{asked_by};
ghost use Rattle.talc_core.specs.Headline.{Does, Headline};
ghost use Rattle.talc_core.specs.Exact.{Exactly};

use crate::commands::perform;
use crate::laws::headline_is_exact;
use crate::report::{Failure, report, show};
use crate::status::Status;
use io_core::{Files, Sink};
use std::alloc::Global;
use talc_words::{Command, NoCommand, numbers_are_in_bounds, read};

// Does a command, and tells the user why where it fails.
fn run_command<F: Files, O: Sink, E: Sink>(
    alloc: Global,
    files: &mut F,
    out: &mut O,
    err: &mut E,
    command: Command,
) -> Status
    requires { NumbersAreInBounds (asked_by command) }
    ensures { Does
        (record { files = F.state files.old; out = O.state out.old; err = E.state err.old })
        (record { files = F.state files.new; out = O.state out.new; err = E.state err.new })
        result (asked_by command.entry) }
{
    match perform(alloc, files, out, command) {
        Ok(ending) => ending.status(),
        Err(failure) => report(alloc, err, failure),
    }
}

/// Does what the words of the command line ask for (the program's name is the first of them), and nothing else.
/// It reads and writes through `files`, puts the answer on `out` and lines for the user on `err`.
pub fn talc<F: Files, O: Sink, E: Sink>(
    alloc: Global,
    words: &Vec<String>,
    files: &mut F,
    out: &mut O,
    err: &mut E,
) -> Status
    ensures headline { Headline (map string_bytes words.now.items)
        (record { files = F.state files.old; out = O.state out.old; err = E.state err.old })
        (record { files = F.state files.new; out = O.state out.new; err = E.state err.new })
        result }
    ensures exactly { Exactly (map string_bytes words.now.items)
        (record { files = F.state files.old; out = O.state out.old; err = E.state err.old })
        (record { files = F.state files.new; out = O.state out.new; err = E.state err.new })
        result }
{
    headline_is_exact();
    numbers_are_in_bounds();
    match read(alloc, words) {
        Ok(command) => run_command(alloc, files, out, err, command),
        Err(NoCommand::Usage(text)) => show(alloc, err, text.as_bytes(), Status::Usage),
        Err(NoCommand::Memory) => report(alloc, err, Failure::Memory),
    }
}
