// The command `native`.
ghost use Rattle.std.specs.Prelude.{◌≡◌, ◌%◌, ◌<◌};
ghost use Rattle.talc_words.specs.Command.{IsHeapSize};
ghost use Rattle.talc_core.specs.FirstFault.{AnAssembly};
ghost use Rattle.talc_core.specs.NativeText.{IsNativeText};
ghost use Rattle.talc_core.specs.NativeListing.{ShowsNativeListing};
ghost use Rattle.talc_core.specs.OnTexts.{MakesText, ShowsText};
ghost use Rattle.talc_core.specs.Steps.{MakesFile, ShowsFile};

use crate::assembly::check_assembly;
use crate::commands::put_reply;
use crate::outside::{read_input, write_output};
use crate::refusal::Refusal;
use crate::reply::{Ending, Reply};
use crate::report::Failure;
use io_core::{Files, Sink};
use native::{native_code, native_listing};
use std::alloc::Global;

/// An executable file for Linux on x86-64 of the accepted program of an assembly text (own choice), with a heap of so
/// many bytes, a multiple of 4096. Refuses a text by its first fault, or for want of memory; a program that is too large
/// for such a file is past an internal bound, and refused as for want of memory.
pub fn native_text(alloc: Global, text: &[u8], heap: u64) -> Result<Vec<u8>, Refusal>
    requires pages { heap % 4096 ≡ 0 }
    requires some { 0 < heap }
    ensures { MakesText (IsNativeText heap) AnAssembly text.now result }
{
    let checked = check_assembly(alloc, text)?;
    let file = native_code(alloc, &checked, heap)?;
    Ok(file)
}

// Writes an executable file of the assembly text of one file to another. The input is read wholly before the output is
// written, and the output is written once.
pub(crate) fn native_file<F: Files>(
    alloc: Global,
    files: &mut F,
    input: &str,
    output: &str,
    heap: u64,
) -> Result<Ending, Failure>
    requires { IsHeapSize heap }
    ensures { MakesFile (IsNativeText heap) AnAssembly input.now output.now (F.state files.old) (F.state files.new)
        result }
{
    let text = read_input(alloc, files, input)?;
    let file = native_text(alloc, &text, heap)?;
    write_output(alloc, files, output, &file)?;
    Ok(Ending::Ends)
}

/// What `native --listing` shows of an assembly text (own choice): the listing of the native code of its accepted
/// program, with a heap of so many bytes, by `native_listing` of the crate `native`. Refuses a text as `native_text`
/// does.
pub fn native_listing_text(alloc: Global, text: &[u8], heap: u64) -> Result<Reply, Refusal>
    requires pages { heap % 4096 ≡ 0 }
    requires some { 0 < heap }
    ensures { ShowsText (ShowsNativeListing heap) AnAssembly text.now result }
{
    let checked = check_assembly(alloc, text)?;
    let line = native_listing(alloc, &checked, heap)?;
    Ok(Reply {
        ending: Ending::Ends,
        line,
    })
}

// Shows the listing of the native code of the assembly text of a file.
pub(crate) fn show_native_listing<F: Files, O: Sink>(
    alloc: Global,
    files: &mut F,
    out: &mut O,
    input: &str,
    heap: u64,
) -> Result<Ending, Failure>
    requires { IsHeapSize heap }
    ensures { ShowsFile (ShowsNativeListing heap) AnAssembly input.now (F.state files.old) (F.state files.new)
        (O.state out.old) (O.state out.new) result }
{
    let text = read_input(alloc, files, input)?;
    let reply = native_listing_text(alloc, &text, heap)?;
    put_reply(alloc, out, &reply)
}
