// The command `run`.
ghost use Rattle.std.specs.Prelude.{◌≡◌, IfOk};
ghost use Rattle.t_terms.specs.ReadProgram.{program as program_of};
ghost use Rattle.t_rules.specs.Rules.{Accepted};
ghost use Rattle.t_check.specs.Checked.{checked_program};
ghost use Rattle.t_machine.specs.Runs.{FirstRun};
ghost use Rattle.talc_core.specs.FirstFault.{AnAssembly};
ghost use Rattle.talc_core.specs.Lines.{integer_line, more_instructions_line};
ghost use Rattle.talc_core.specs.Shown.{ShowsRun};
ghost use Rattle.talc_core.specs.OnTexts.{ShowsText};
ghost use Rattle.talc_core.specs.Steps.{ShowsFile};

use crate::assembly::check_assembly;
use crate::commands::put_reply;
use crate::lines::more_line;
use crate::outside::read_input;
use crate::refusal::Refusal;
use crate::reply::{Ending, Reply};
use crate::report::Failure;
use idx_core::OutOfMemory;
use io_core::{Files, Sink};
use std::alloc::Global;
use t_check::Checked;
use t_machine::{Ran, first_runs_tell, load};
use t_writer::write_integer;

// The line of the integer with which a program halts.
pub(crate) fn integer_line(alloc: Global, value: i64) -> Result<Vec<u8>, OutOfMemory>
    ensures { IfOk result (λ line. line.items ≡ integer_line value) }
{
    let mut line = Vec::from_slice(alloc, b"int ")?;
    write_integer(&mut line, value)?;
    line.extend_from_slice(b"\n")?;
    Ok(line)
}

// The line of a program that goes on after so many instructions.
pub(crate) fn more_instructions_line(alloc: Global, count: u64) -> Result<Vec<u8>, OutOfMemory>
    ensures { IfOk result (λ line. line.items ≡ more_instructions_line count) }
{
    more_line(alloc, count, b" instructions\n")
}

// The first run of a program.
pub(crate) fn first_run(alloc: Global, program: &Checked, fuel: u64) -> Result<Ran, OutOfMemory>
    requires { Accepted (program_of (checked_program program.now)) }
    ensures { IfOk result (λ ran. FirstRun (program_of (checked_program program.now)) fuel ran) }
{
    first_runs_tell();
    let mut machine = load(alloc, program)?;
    let ran = machine.run(fuel);
    Ok(ran)
}

/// What `run` shows of an assembly text (the TAL machine of the paper of 1999): the integer with which its accepted
/// program halts within `fuel` instructions, or that it goes on after them. Refuses a text by its first fault, or for
/// want of memory.
pub fn run_text(alloc: Global, text: &[u8], fuel: u64) -> Result<Reply, Refusal>
    ensures { ShowsText (ShowsRun fuel) AnAssembly text.now result }
{
    let program = check_assembly(alloc, text)?;
    match first_run(alloc, &program, fuel)? {
        Ran::Halted { value, .. } => Ok(Reply {
            ending: Ending::Ends,
            line: integer_line(alloc, value)?,
        }),
        Ran::Spent => Ok(Reply {
            ending: Ending::GoesOn,
            line: more_instructions_line(alloc, fuel)?,
        }),
        Ran::NoMemory { .. } => Err(Refusal::Memory),
    }
}

// Shows how the program of the assembly text of a file runs within so many instructions.
pub(crate) fn show_run<F: Files, O: Sink>(
    alloc: Global,
    files: &mut F,
    out: &mut O,
    input: &str,
    fuel: u64,
) -> Result<Ending, Failure>
    ensures { ShowsFile (ShowsRun fuel) AnAssembly input.now (F.state files.old) (F.state files.new)
        (O.state out.old) (O.state out.new) result }
{
    let text = read_input(alloc, files, input)?;
    let reply = run_text(alloc, &text, fuel)?;
    put_reply(alloc, out, &reply)
}
