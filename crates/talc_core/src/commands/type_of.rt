// The command `typeof`.
ghost use Rattle.std.specs.Prelude.{◌≡◌, IfOk};
ghost use Rattle.f_terms.specs.Read.{tree};
ghost use Rattle.talc_core.specs.FirstFault.{AnyTerm};
ghost use Rattle.talc_core.specs.Lines.{type_line};
ghost use Rattle.talc_core.specs.Shown.{ShowsType};
ghost use Rattle.talc_core.specs.OnTexts.{ShowsText};
ghost use Rattle.talc_core.specs.Steps.{ShowsFile};

use crate::commands::put_reply;
use crate::outside::read_input;
use crate::refusal::Refusal;
use crate::reply::{Ending, Reply};
use crate::report::Failure;
use crate::source::check_source;
use f_terms::FType;
use f_writer::type_at;
use idx_core::OutOfMemory;
use io_core::{Files, Sink};
use std::alloc::Global;

// The text of a type, and a line end.
fn type_line(alloc: Global, ty: &FType) -> Result<Vec<u8>, OutOfMemory>
    ensures { IfOk result (λ line. line.items ≡ type_line (tree ty.now)) }
{
    let mut line = type_at(alloc, ty, 0)?;
    line.extend_from_slice(b"\n")?;
    Ok(line)
}

/// What `typeof` shows of a source text (typing of System F in the paper of 1999): the type of its term. Refuses a text
/// by its first fault, or for want of memory.
pub fn type_of_text(alloc: Global, source: &[u8]) -> Result<Reply, Refusal>
    ensures { ShowsText ShowsType AnyTerm source.now result }
{
    let typed = check_source(alloc, source)?;
    let line = type_line(alloc, typed.ty())?;
    Ok(Reply {
        ending: Ending::Ends,
        line,
    })
}

// Shows the type of the source text of a file.
pub(crate) fn show_type<F: Files, O: Sink>(
    alloc: Global,
    files: &mut F,
    out: &mut O,
    input: &str,
) -> Result<Ending, Failure>
    ensures { ShowsFile ShowsType AnyTerm input.now (F.state files.old) (F.state files.new)
        (O.state out.old) (O.state out.new) result }
{
    let source = read_input(alloc, files, input)?;
    let reply = type_of_text(alloc, &source)?;
    put_reply(alloc, out, &reply)
}
