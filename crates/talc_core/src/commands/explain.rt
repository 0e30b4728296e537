// The command `explain`.
ghost use Rattle.std.specs.Prelude.{◌≡◌, IfOk};
ghost use Rattle.talc_core.specs.FirstFault.{AnyText};
ghost use Rattle.talc_core.specs.Lines.{source_code, source_words, tal_code, tal_words};
ghost use Rattle.talc_faults.specs.Hints.{source_hint_at, tal_hint_at};
ghost use Rattle.talc_core.specs.Explained.{ExplainShown, ShowsExplained, explained, looked_for};
ghost use Rattle.talc_core.specs.OnTexts.{ShowsText};
ghost use Rattle.talc_core.specs.Steps.{IsFinding, ShowsFile, told_of};

use crate::commands::put_reply;
use crate::fault::Fault;
use crate::fault::codes::{source_code, source_words, tal_code, tal_words};
use crate::finding::{Finding, Told, find_in_assembly, find_in_source};
use crate::outside::read_input;
use crate::refusal::Refusal;
use crate::reply::{Ending, Reply};
use crate::report::Failure;
use f_terms::Code;
use idx_core::{OutOfMemory, Span};
use io_core::{Files, Sink};
use page_core::{Note, page_of};
use std::alloc::Global;
use t_terms::TCode;
use t_text::is_assembly;
use talc_faults::{source_hint, tal_hint};

// Looks for the first fault of a text.
fn find_fault(alloc: Global, text: &[u8]) -> Result<Finding, OutOfMemory>
    ensures { IfOk result (IsFinding (looked_for text.now) text.now) }
{
    if is_assembly(text) {
        find_in_assembly(alloc, text)
    } else {
        find_in_source(alloc, text)
    }
}

// What is told of a fault of a source.
fn source_note<'a>(name: &'a [u8], text: &[u8], code: Code, place: Span, told: &'a Told) -> Note<'a>
    ensures name { result.name.now ≡ name.now }
    ensures code { result.code.now ≡ source_code code }
    ensures words { result.words.now ≡ source_words code }
    ensures place { result.place ≡ place }
    ensures value { result.value ≡ told.now.value }
    ensures odds { result.odds.now ≡ told.now.lines.items }
    ensures hint { result.hint.now ≡ source_hint_at text.now code place told.now.lines.items told.now.form }
{
    Note {
        name,
        code: source_code(code),
        words: source_words(code),
        place,
        value: told.value,
        odds: &told.lines,
        hint: source_hint(text, code, place, &told.lines, told.form),
    }
}

// The same of an assembly text.
fn tal_note<'a>(name: &'a [u8], text: &[u8], code: TCode, place: Span, told: &'a Told) -> Note<'a>
    ensures name { result.name.now ≡ name.now }
    ensures code { result.code.now ≡ tal_code code }
    ensures words { result.words.now ≡ tal_words code }
    ensures place { result.place ≡ place }
    ensures value { result.value ≡ told.now.value }
    ensures odds { result.odds.now ≡ told.now.lines.items }
    ensures hint { result.hint.now ≡ tal_hint_at text.now code place told.now.lines.items }
{
    Note {
        name,
        code: tal_code(code),
        words: tal_words(code),
        place,
        value: told.value,
        odds: &told.lines,
        hint: tal_hint(text, code, place, &told.lines),
    }
}

// The page of a fault of the text of this name, with what is told of it.
pub(crate) fn explain_fault(
    alloc: Global,
    name: &[u8],
    text: &[u8],
    fault: Fault,
    told: &Told,
) -> Result<Vec<u8>, OutOfMemory>
    ensures { IfOk result (λ page. page.items ≡ explained name.now text.now fault (told_of told.now)) }
{
    match fault {
        Fault::Source(code, place) => {
            page_of(alloc, text, &source_note(name, text, code, place, told))
        }
        Fault::Tal(code, place) => page_of(alloc, text, &tal_note(name, text, code, place, told)),
    }
}

// What is shown of the text of this name.
fn explanation(alloc: Global, name: &[u8], text: &[u8]) -> Result<Vec<u8>, OutOfMemory>
    ensures { IfOk result (λ shown. ExplainShown name.now text.now shown.items) }
{
    match find_fault(alloc, text)? {
        Finding::NoFault => {
            let line = Vec::from_slice(alloc, b"no fault\n")?;
            Ok(line)
        }
        Finding::Fault(fault, told) => {
            let page = explain_fault(alloc, name, text, fault, &told)?;
            Ok(page)
        }
    }
}

/// What `explain` shows of a text of this name (own choice): a page for people on its first fault, as that of a program
/// of the source, or, where its first token is `tal`, of an assembly program; or that it has none. The page begins with
/// the name, the line and the column, as editors read them: without a name, where that is empty. Only want of memory is
/// an error.
pub fn explain_text(alloc: Global, name: &[u8], text: &[u8]) -> Result<Reply, Refusal>
    ensures { ShowsText (ShowsExplained name.now) AnyText text.now result }
{
    let line = explanation(alloc, name, text)?;
    Ok(Reply {
        ending: Ending::Ends,
        line,
    })
}

// Explains the first fault of the text of a file.
pub(crate) fn show_explanation<F: Files, O: Sink>(
    alloc: Global,
    files: &mut F,
    out: &mut O,
    input: &str,
) -> Result<Ending, Failure>
    ensures { ShowsFile (ShowsExplained input.now) AnyText input.now (F.state files.old) (F.state files.new)
        (O.state out.old) (O.state out.new) result }
{
    let text = read_input(alloc, files, input)?;
    let reply = explain_text(alloc, input.as_bytes(), &text)?;
    put_reply(alloc, out, &reply)
}
