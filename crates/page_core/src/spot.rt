// Lines and columns of places in a text.
ghost use Rattle.std.specs.Prelude.{◌≡◌, ◌≤◌, ◌+◌, length};
ghost use Rattle.page_core.specs.Spot.{lines, last_begin, first_line, line_number, line_at, offset, lines_over};

use idx_core::Span;

// The last line of some bytes: its number, from 1 on, and where it begins.
#[derive(Clone, Copy, Debug, PartialEq, Eq, Drop)]
struct LastLine {
    number: u64,
    begin: usize,
}

fn last_line(bytes: &[u8]) -> LastLine
    ensures number { result.number ≡ lines bytes.now }
    ensures begin { result.begin ≡ last_begin 0 0 bytes.now }
    ensures bound { result.begin ≤ length bytes.now }
{
    let mut number = 1;
    let mut begin = 0;
    for (i, byte) in bytes.iter().enumerate() {
        if *byte == b'\n' {
            number += 1;
            begin = i + 1;
        }
    }
    LastLine { number, begin }
}

// The bytes up to the first line end.
fn first_line(bytes: &[u8]) -> &[u8]
    ensures { result.now ≡ first_line bytes.now }
{
    for (i, byte) in bytes.iter().enumerate() {
        if *byte == b'\n' {
            return &bytes[..i];
        }
    }
    bytes
}

// A place in a text by its line.
#[derive(Clone, Copy, Debug, PartialEq, Eq, Drop)]
pub(crate) struct Spot<'a> {
    // The number of the line, from 1 on.
    pub(crate) number: u64,
    // The bytes of the line, without its line end.
    pub(crate) line: &'a [u8],
    // How many bytes of the line stand before the place.
    pub(crate) before: usize,
}

// The place of a byte, or the end of the text where the byte stands behind it.
pub(crate) fn spot_at(text: &[u8], byte: u64) -> Spot<'_>
    ensures number { result.number ≡ line_number text.now byte }
    ensures line { result.line.now ≡ line_at text.now byte }
    ensures before { result.before ≡ offset text.now byte }
{
    let place = text.len().min(byte as usize);
    let last = last_line(&text[..place]);
    Spot {
        number: last.number,
        line: first_line(&text[last.begin..]),
        before: place - last.begin,
    }
}

// How many lines the bytes of a place stand on.
pub(crate) fn lines_over(text: &[u8], place: Span) -> u64
    ensures { result ≡ lines_over text.now place.start place.end }
{
    let start = text.len().min(place.start as usize);
    let behind = &text[start..];
    let size = place.end.saturating_sub(place.start).saturating_sub(1);
    let size = behind.len().min(size as usize);
    last_line(&behind[..size]).number
}
