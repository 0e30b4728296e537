// The command `types`.
ghost use Rattle.talc_core.specs.Binding.{ShowsTypes};
ghost use Rattle.talc_core.specs.FirstFault.{AnyTerm};
ghost use Rattle.talc_core.specs.OnTexts.{ShowsText};
ghost use Rattle.talc_core.specs.Steps.{ShowsFile};

use crate::commands::put_reply;
use crate::outside::read_input;
use crate::refusal::Refusal;
use crate::reply::{Ending, Reply};
use crate::report::Failure;
use crate::source::check_source;
use io_core::{Files, Sink};
use std::alloc::Global;
use types_page::page_of;

/// What `types` shows of a source text (own choice): what its forms bind, with the types, and the type of its term, by
/// `page_of` of the crate `types_page`. Refuses a text by its first fault, or for want of memory.
pub fn types_text(alloc: Global, source: &[u8]) -> Result<Reply, Refusal>
    ensures { ShowsText ShowsTypes AnyTerm source.now result }
{
    let typed = check_source(alloc, source)?;
    let line = page_of(alloc, source, &typed)?;
    Ok(Reply {
        ending: Ending::Ends,
        line,
    })
}

// Shows what the source text of a file binds, with the types.
pub(crate) fn show_types<F: Files, O: Sink>(
    alloc: Global,
    files: &mut F,
    out: &mut O,
    input: &str,
) -> Result<Ending, Failure>
    ensures { ShowsFile ShowsTypes AnyTerm input.now (F.state files.old) (F.state files.new)
        (O.state out.old) (O.state out.new) result }
{
    let source = read_input(alloc, files, input)?;
    let reply = types_text(alloc, &source)?;
    put_reply(alloc, out, &reply)
}
