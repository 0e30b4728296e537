// The command `check`.
ghost use Rattle.std.specs.Prelude.{MatchResult};
ghost use Rattle.talc_core.specs.FirstFault.{AnAssembly};
ghost use Rattle.talc_core.specs.Shown.{ShowsAccepted};
ghost use Rattle.talc_core.specs.OnTexts.{ShowsText, RefusedBy, status_at};
ghost use Rattle.talc_core.specs.Steps.{ShowsFile};

use crate::assembly::check_assembly;
use crate::commands::put_reply;
use crate::outside::read_input;
use crate::refusal::Refusal;
use crate::reply::{Ending, Reply};
use crate::report::Failure;
use io_core::{Files, Sink};
use std::alloc::Global;
use std::mem::ManuallyDrop;
use t_check::Checked;
use t_rules::accepted_programs_are_never_stuck;

/// What `check` shows of an assembly text (TAL typing of the paper of 1999): that the typing rules accept its program,
/// which then never gets stuck. Refuses a text by its first fault, or for want of memory.
pub fn check_text(alloc: Global, text: &[u8]) -> Result<Reply, Refusal>
    ensures { ShowsText ShowsAccepted AnAssembly text.now result }
{
    let (_checked, reply) = checked_with_reply(alloc, text)?;
    Ok(reply)
}

// The same, with the program.
fn checked_with_reply(alloc: Global, text: &[u8]) -> Result<(Checked, Reply), Refusal>
    ensures { MatchResult result (λ x. ShowsAccepted (status_at x.1.ending) text.now x.1.line.items)
        (λ why. RefusedBy AnAssembly text.now why) }
{
    accepted_programs_are_never_stuck();
    let checked = check_assembly(alloc, text)?;
    let line = Vec::from_slice(alloc, b"accepted\n")?;
    let reply = Reply {
        ending: Ending::Ends,
        line,
    };
    Ok((checked, reply))
}

// Shows whether the program of the assembly text of a file is accepted. Its memory is not given back: to go through the
// program once more would take a twentieth of the time, and the command is at its end.
pub(crate) fn show_acceptance<F: Files, O: Sink>(
    alloc: Global,
    files: &mut F,
    out: &mut O,
    input: &str,
) -> Result<Ending, Failure>
    ensures { ShowsFile ShowsAccepted AnAssembly input.now (F.state files.old) (F.state files.new)
        (O.state out.old) (O.state out.new) result }
{
    let text = read_input(alloc, files, input)?;
    let (checked, reply) = checked_with_reply(alloc, &text)?;
    let _kept = ManuallyDrop::new(checked);
    put_reply(alloc, out, &reply)
}
