// The command `show`.
ghost use Rattle.talc_core.specs.FirstFault.{AProgram};
ghost use Rattle.talc_core.specs.FormShown.{ShowsForm};
ghost use Rattle.talc_core.specs.OnTexts.{ShowsText};
ghost use Rattle.talc_core.specs.Steps.{ShowsFile};

use crate::commands::put_reply;
use crate::outside::read_input;
use crate::refusal::Refusal;
use crate::reply::{Ending, Reply};
use crate::report::Failure;
use crate::source::read_program;
use io_core::{Files, Sink};
use pipeline::{form_of, forms_are_of_translations};
use std::alloc::Global;
use talc_words::Form;

/// What `show` shows of a source text: its program in a form on the way to the assembly program (the passes of the
/// paper of 1999 in turn), in that form's notation (own choice). Refuses a text by its first fault, or for want of
/// memory.
pub fn form_of_text(alloc: Global, source: &[u8], form: Form) -> Result<Reply, Refusal>
    ensures { ShowsText (ShowsForm form) AProgram source.now result }
{
    forms_are_of_translations();
    let program = read_program(alloc, source)?;
    let line = form_of(alloc, &program, form)?;
    Ok(Reply {
        ending: Ending::Ends,
        line,
    })
}

// Shows a form of the program of the source text of a file.
pub(crate) fn show_form<F: Files, O: Sink>(
    alloc: Global,
    files: &mut F,
    out: &mut O,
    input: &str,
    form: Form,
) -> Result<Ending, Failure>
    ensures { ShowsFile (ShowsForm form) AProgram input.now (F.state files.old) (F.state files.new)
        (O.state out.old) (O.state out.new) result }
{
    let source = read_input(alloc, files, input)?;
    let reply = form_of_text(alloc, &source, form)?;
    put_reply(alloc, out, &reply)
}
