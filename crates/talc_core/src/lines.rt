// The lines that are put on the error output, and the one of what goes on.
ghost use Rattle.std.specs.Prelude.{◌≡◌, ◌++◌, IfOk, OnOk, codes};
ghost use Rattle.talc_core.specs.Lines.{span_text, shown_text, fault_line, more_line};

use crate::fault::Fault;
use crate::fault::codes::{source_code, source_words, tal_code, tal_words};
use idx_core::{OutOfMemory, Span};
use std::alloc::Global;
use t_writer::write_natural;

// A place, as its start, two dots and its end.
fn write_span(line: &mut Vec<u8>, span: Span) -> Result<(), OutOfMemory>
    ensures { OnOk result (line.new.items ≡ line.old.items ++ span_text span) }
{
    write_natural(line, span.start)?;
    line.extend_from_slice(b"..")?;
    write_natural(line, span.end)
}

fn make_line(alloc: Global, code: &str, span: Span, words: &str) -> Result<Vec<u8>, OutOfMemory>
    ensures { IfOk result (λ line. line.items ≡ shown_text code.now span words.now ++ codes "\n") }
{
    let mut line = Vec::from_slice(alloc, code.as_bytes())?;
    line.extend_from_slice(b" ")?;
    write_span(&mut line, span)?;
    line.extend_from_slice(b" ")?;
    line.extend_from_slice(words.as_bytes())?;
    line.extend_from_slice(b"\n")?;
    Ok(line)
}

/// The line that names a fault (own choice): its code, a space, its place as `start..end` in bytes of the text from
/// 0, a space, the words of its code, and a line end.
pub fn fault_line(alloc: Global, fault: &Fault) -> Result<Vec<u8>, OutOfMemory>
    ensures { IfOk result (λ line. line.items ≡ fault_line fault.now) }
{
    match *fault {
        Fault::Source(code, span) => make_line(alloc, source_code(code), span, source_words(code)),
        Fault::Tal(code, span) => make_line(alloc, tal_code(code), span, tal_words(code)),
    }
}

// The line of what goes on after so many of something.
pub(crate) fn more_line(alloc: Global, count: u64, what: &[u8]) -> Result<Vec<u8>, OutOfMemory>
    ensures { IfOk result (λ line. line.items ≡ more_line count what.now) }
{
    let mut line = Vec::from_slice(alloc, b"running after ")?;
    write_natural(&mut line, count)?;
    line.extend_from_slice(what)?;
    Ok(line)
}
