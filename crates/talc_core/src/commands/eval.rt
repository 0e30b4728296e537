// The command `eval`.
ghost use Rattle.std.specs.Prelude.{◌≡◌, IfOk};
ghost use Rattle.talc_core.specs.FirstFault.{CellFree};
ghost use Rattle.talc_core.specs.Lines.{value_line, more_turns_line};
ghost use Rattle.talc_core.specs.Shown.{ShowsValue};
ghost use Rattle.talc_core.specs.OnTexts.{ShowsText};
ghost use Rattle.talc_core.specs.Steps.{ShowsFile};

use crate::commands::put_reply;
use crate::lines::more_line;
use crate::outside::read_input;
use crate::refusal::Refusal;
use crate::reply::{Ending, Reply};
use crate::report::Failure;
use crate::source::read_cell_free;
use f_eval::{Ended, eval};
use idx_core::OutOfMemory;
use io_core::{Files, Sink};
use std::alloc::Global;
use t_writer::{write_integer, write_natural};

// The line of an integer with the turns that were used.
pub(crate) fn value_line(alloc: Global, value: i64, used: u64) -> Result<Vec<u8>, OutOfMemory>
    ensures { IfOk result (λ line. line.items ≡ value_line value used) }
{
    let mut line = Vec::from_slice(alloc, b"int ")?;
    write_integer(&mut line, value)?;
    line.extend_from_slice(b" after ")?;
    write_natural(&mut line, used)?;
    line.extend_from_slice(b" turns\n")?;
    Ok(line)
}

// The line of a program that goes on after so many turns.
fn more_turns_line(alloc: Global, turns: u64) -> Result<Vec<u8>, OutOfMemory>
    ensures { IfOk result (λ line. line.items ≡ more_turns_line turns) }
{
    more_line(alloc, turns, b" turns\n")
}

/// What `eval` shows of a source text without cells (evaluation of System F in the paper of 1999, by turns): the
/// integer to which it evaluates within so many turns, and how many of them it took; or that it goes on after them.
/// Refuses a text by its first fault, or for want of memory.
pub fn eval_text(alloc: Global, source: &[u8], turns: u64) -> Result<Reply, Refusal>
    ensures { ShowsText (ShowsValue turns) CellFree source.now result }
{
    let program = read_cell_free(alloc, source)?;
    match eval(alloc, &program, turns)? {
        Ended::Value { value, used } => Ok(Reply {
            ending: Ending::Ends,
            line: value_line(alloc, value, used)?,
        }),
        Ended::Spent => Ok(Reply {
            ending: Ending::GoesOn,
            line: more_turns_line(alloc, turns)?,
        }),
    }
}

// Shows what the source text of a file evaluates to within so many turns.
pub(crate) fn show_value<F: Files, O: Sink>(
    alloc: Global,
    files: &mut F,
    out: &mut O,
    input: &str,
    turns: u64,
) -> Result<Ending, Failure>
    ensures { ShowsFile (ShowsValue turns) CellFree input.now (F.state files.old) (F.state files.new)
        (O.state out.old) (O.state out.new) result }
{
    let source = read_input(alloc, files, input)?;
    let reply = eval_text(alloc, &source, turns)?;
    put_reply(alloc, out, &reply)
}
