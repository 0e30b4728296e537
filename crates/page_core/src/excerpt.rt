// The line of a place, with the place marked under it.
ghost use Rattle.std.specs.Prelude.{◌≡◌, ◌++◌, ◌≤◌, decimal, length, map, replicate, OnOk, IfOk};
ghost use Rattle.page_core.specs.Page.{first_shown, shown_byte, dots, indent, shown_rest, shown_line, marks};
ghost use Rattle.page_core.specs.Page.{line_row, mark_row, excerpt_of};

use crate::spot::Spot;
use idx_core::OutOfMemory;
use itoa::Buffer;

// How many bytes of a line are shown at most.
const WIDTH: usize = 100;
// How many of them stand before the place, where there is room behind it.
const BEFORE: usize = 50;

// Puts a number in decimal at the end of a page, and answers how many digits it has.
pub(crate) fn write_number(page: &mut Vec<u8>, n: u64) -> Result<usize, OutOfMemory>
    ensures written { OnOk result (page.new.items ≡ page.old.items ++ decimal n) }
    ensures digits { IfOk result (λ count. count ≡ length (decimal n)) }
{
    let mut buffer = Buffer::new();
    let digits = buffer.format(n).as_bytes();
    page.extend_from_slice(digits)?;
    Ok(digits.len())
}

fn write_times(page: &mut Vec<u8>, byte: u8, count: usize) -> Result<(), OutOfMemory>
    ensures { OnOk result (page.new.items ≡ page.old.items ++ replicate count byte) }
{
    for _i in 0..count {
        page.push(byte)?;
    }
    Ok(())
}

// A printable sign of ASCII as it is, a tab and a carriage return as a space, and any other byte as a question mark.
fn shown_byte(byte: u8) -> u8
    ensures { result ≡ shown_byte byte }
{
    match byte {
        b'\t' | b'\r' => b' ',
        b' '..=b'~' => byte,
        _ => b'?',
    }
}

fn write_shown(page: &mut Vec<u8>, bytes: &[u8]) -> Result<(), OutOfMemory>
    ensures { OnOk result (page.new.items ≡ page.old.items ++ map shown_byte bytes.now) }
{
    for byte in bytes {
        page.push(shown_byte(*byte))?;
    }
    Ok(())
}

// Dots, where bytes are left out.
fn write_dots(page: &mut Vec<u8>, cut: bool) -> Result<(), OutOfMemory>
    ensures { OnOk result (page.new.items ≡ page.old.items ++ dots cut) }
{
    if cut {
        page.extend_from_slice(b"..")?;
    }
    Ok(())
}

// What is left of a line, as far as it is shown.
fn write_rest(page: &mut Vec<u8>, rest: &[u8]) -> Result<(), OutOfMemory>
    ensures { OnOk result (page.new.items ≡ page.old.items ++ shown_rest rest.now) }
{
    let count = WIDTH.min(rest.len());
    write_shown(page, &rest[..count])?;
    write_dots(page, rest.len() > WIDTH)?;
    Ok(())
}

// A line from one of its bytes on.
fn write_line(page: &mut Vec<u8>, line: &[u8], first: usize) -> Result<(), OutOfMemory>
    requires { first ≤ length line.now }
    ensures { OnOk result (page.new.items ≡ page.old.items ++ shown_line line.now first) }
{
    write_dots(page, first > 0)?;
    write_rest(page, &line[first..])?;
    Ok(())
}

// Spaces as far as the place.
fn write_indent(page: &mut Vec<u8>, first: usize, before: usize) -> Result<(), OutOfMemory>
    ensures { OnOk result (page.new.items ≡ page.old.items ++ indent first before) }
{
    if first > 0 {
        page.extend_from_slice(b"  ")?;
    }
    write_times(page, b' ', before.saturating_sub(first))
}

// The first byte that is shown of a line of so many bytes, where so many stand before the place.
fn first_shown(before: usize, count: usize) -> usize
    ensures { result ≡ first_shown before count }
{
    before
        .saturating_sub(BEFORE)
        .min(count.saturating_sub(WIDTH))
}

// How many marks stand under a place of so many bytes, before which so many stand on its line.
fn marks(line: &[u8], first: usize, before: usize, size: u64) -> usize
    requires { first ≤ length line.now }
    ensures { result ≡ marks line.now first before size }
{
    let shown = line.len().min(first + WIDTH).saturating_sub(before);
    shown.min(size as usize).max(1)
}

// The number of a line and the line. Answers how many digits the number has.
fn write_line_row(page: &mut Vec<u8>, spot: &Spot, first: usize) -> Result<usize, OutOfMemory>
    requires { first ≤ length spot.now.line.now }
    ensures written { OnOk result (page.new.items
        ≡ page.old.items ++ line_row spot.now.number spot.now.line.now first) }
    ensures digits { IfOk result (λ count. count ≡ length (decimal spot.now.number)) }
{
    let digits = write_number(page, spot.number)?;
    page.extend_from_slice(b" | ")?;
    write_line(page, spot.line, first)?;
    page.extend_from_slice(b"\n")?;
    Ok(digits)
}

// Marks under a place of so many bytes, behind spaces under a number of so many digits.
fn write_mark_row(
    page: &mut Vec<u8>,
    digits: usize,
    spot: &Spot,
    first: usize,
    size: u64,
) -> Result<(), OutOfMemory>
    requires { first ≤ length spot.now.line.now }
    ensures { OnOk result (page.new.items
        ≡ page.old.items ++ mark_row digits spot.now.line.now first spot.now.before size) }
{
    write_times(page, b' ', digits)?;
    page.extend_from_slice(b" | ")?;
    write_indent(page, first, spot.before)?;
    write_times(page, b'^', marks(spot.line, first, spot.before, size))?;
    page.extend_from_slice(b"\n")?;
    Ok(())
}

// Puts the line of a place of so many bytes at the end of a page, and marks under the place.
pub(crate) fn write_excerpt(page: &mut Vec<u8>, spot: &Spot, size: u64) -> Result<(), OutOfMemory>
    ensures { OnOk result (page.new.items
        ≡ page.old.items ++ excerpt_of spot.now.number spot.now.line.now spot.now.before size) }
{
    let first = first_shown(spot.before, spot.line.len());
    let digits = write_line_row(page, spot, first)?;
    write_mark_row(page, digits, spot, first, size)?;
    Ok(())
}
