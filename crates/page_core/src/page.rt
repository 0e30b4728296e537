// The page.
ghost use Rattle.std.specs.Prelude.{◌≡◌, ◌++◌, ◌-◌, ◌+◌, IfOk, OnOk};
ghost use Rattle.page_core.specs.Spot.{line_number, offset};
ghost use Rattle.page_core.specs.Page.{over_text, bytes_text, name_text, place_text, fault_text, heading, excerpt};
ghost use Rattle.page_core.specs.Page.{odds_rows, value_rows, page};

use crate::excerpt::{write_excerpt, write_number};
use crate::spot::{Spot, lines_over, spot_at};
use idx_core::{OutOfMemory, Span};
use std::alloc::Global;

/// What is to be told of a fault (own choice).
#[derive(Clone, Copy, Debug, PartialEq, Eq, Drop)]
pub struct Note<'a> {
    /// The name of the text; nothing where it has none.
    pub name: &'a [u8],
    /// The code of the fault, as `E05`.
    pub code: &'a str,
    /// What is wrong, in some words.
    pub words: &'a str,
    /// The place, in bytes of the text from 0.
    pub place: Span,
    /// A second place: that of the value that a whole has.
    pub value: Option<Span>,
    /// What is at odds or was wanted, in one line or more without the last line end; or nothing.
    pub odds: &'a [u8],
    /// What is to be done, in a sentence.
    pub hint: &'a str,
}

fn write_over(page: &mut Vec<u8>, lines: u64) -> Result<(), OutOfMemory>
    ensures { OnOk result (page.new.items ≡ page.old.items ++ over_text lines) }
{
    if lines == 1 {
        return Ok(());
    }
    page.extend_from_slice(b", over ")?;
    write_number(page, lines)?;
    page.extend_from_slice(b" lines")?;
    Ok(())
}

fn write_bytes(page: &mut Vec<u8>, place: Span) -> Result<(), OutOfMemory>
    ensures { OnOk result (page.new.items ≡ page.old.items ++ bytes_text place.start place.end) }
{
    page.extend_from_slice(b" (bytes ")?;
    write_number(page, place.start)?;
    page.extend_from_slice(b"..")?;
    write_number(page, place.end)?;
    page.extend_from_slice(b")")?;
    Ok(())
}

// The name of a text, where it has one.
fn write_name(page: &mut Vec<u8>, name: &[u8]) -> Result<(), OutOfMemory>
    ensures { OnOk result (page.new.items ≡ page.old.items ++ name_text name.now) }
{
    if name.is_empty() {
        return Ok(());
    }
    page.extend_from_slice(name)?;
    page.extend_from_slice(b":")?;
    Ok(())
}

// A place by the name of its text, its line and its column.
fn write_place(page: &mut Vec<u8>, name: &[u8], line: u64, column: u64) -> Result<(), OutOfMemory>
    ensures { OnOk result (page.new.items ≡ page.old.items ++ place_text name.now line column) }
{
    write_name(page, name)?;
    write_number(page, line)?;
    page.extend_from_slice(b":")?;
    write_number(page, column)?;
    page.extend_from_slice(b": ")?;
    Ok(())
}

// The code and the words, over how many lines the place goes, and its bytes.
fn write_fault(page: &mut Vec<u8>, note: &Note, lines: u64) -> Result<(), OutOfMemory>
    ensures { OnOk result (page.new.items ≡ page.old.items
        ++ fault_text note.now.code.now note.now.words.now lines note.now.place.start note.now.place.end) }
{
    page.extend_from_slice(note.code.as_bytes())?;
    page.extend_from_slice(b" ")?;
    page.extend_from_slice(note.words.as_bytes())?;
    write_over(page, lines)?;
    write_bytes(page, note.place)
}

// Where, and what is wrong.
fn write_heading(
    page: &mut Vec<u8>,
    text: &[u8],
    note: &Note,
    spot: &Spot,
) -> Result<(), OutOfMemory>
    requires number { spot.now.number ≡ line_number text.now note.now.place.start }
    requires before { spot.now.before ≡ offset text.now note.now.place.start }
    ensures { OnOk result (page.new.items ≡ page.old.items ++ heading note.now.name.now text.now note.now.code.now
        note.now.words.now note.now.place.start note.now.place.end) }
{
    let column = spot.before as u64 + 1;
    write_place(page, note.name, spot.number, column)?;
    write_fault(page, note, lines_over(text, note.place))?;
    page.extend_from_slice(b"\n")?;
    Ok(())
}

// The line of a place of a text, with the place marked.
fn write_marked(page: &mut Vec<u8>, text: &[u8], place: Span) -> Result<(), OutOfMemory>
    ensures { OnOk result (page.new.items ≡ page.old.items ++ excerpt text.now place.start place.end) }
{
    let size = place.end.saturating_sub(place.start);
    write_excerpt(page, &spot_at(text, place.start), size)
}

// The line of the second place, where there is one.
fn write_value(page: &mut Vec<u8>, text: &[u8], place: Option<Span>) -> Result<(), OutOfMemory>
    ensures { OnOk result (page.new.items ≡ page.old.items ++ value_rows text.now place) }
{
    match place {
        Some(place) => {
            page.extend_from_slice(b"its value is that of:\n")?;
            write_marked(page, text, place)
        }
        None => Ok(()),
    }
}

// What is at odds or was wanted, where there is anything.
fn write_odds(page: &mut Vec<u8>, odds: &[u8]) -> Result<(), OutOfMemory>
    ensures { OnOk result (page.new.items ≡ page.old.items ++ odds_rows odds.now) }
{
    if odds.is_empty() {
        return Ok(());
    }
    page.extend_from_slice(odds)?;
    page.extend_from_slice(b"\n")?;
    Ok(())
}

/// The page that explains a fault of a text (own choice): a line that editors read, with the name, the line and the
/// column of the place, both from 1, the code, the words and the bytes of the place from 0; the line of the text, at
/// most 100 bytes of it; marks under the place; the line of the second place, if there is one; what is at odds or was
/// wanted; the hint. Columns count bytes. An error is want of memory.
pub fn page_of(alloc: Global, text: &[u8], note: &Note) -> Result<Vec<u8>, OutOfMemory>
    ensures { IfOk result (λ made. made.items ≡ page note.now.name.now text.now note.now.code.now note.now.words.now
        note.now.place.start note.now.place.end note.now.value note.now.odds.now note.now.hint.now) }
{
    let mut page = Vec::new(alloc);
    let spot = spot_at(text, note.place.start);
    write_heading(&mut page, text, note, &spot)?;
    write_marked(&mut page, text, note.place)?;
    write_value(&mut page, text, note.value)?;
    write_odds(&mut page, note.odds)?;
    page.extend_from_slice(note.hint.as_bytes())?;
    page.extend_from_slice(b"\n")?;
    Ok(page)
}
