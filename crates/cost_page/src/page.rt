// The page.
ghost use Rattle.std.specs.Prelude.{◌≡◌, ◌++◌, IfOk, OnOk};
ghost use Rattle.page_core.specs.Spot.{line_number};
ghost use Rattle.t_terms.specs.ReadProgram.{spanned_program};
ghost use Rattle.cost_page.specs.Page.{row, word, kind_row, kind_rows, kinds, bytes_at, name_text, place_row};
ghost use Rattle.cost_page.specs.Page.{most_text, totals_text, page};

use crate::most::most_of;
use crate::places::{Kind, Place, places_of};
use crate::totals::{Measure, total};
use idx_core::{OutOfMemory, Span};
use std::alloc::Global;
use t_terms::TProgram;
use t_writer::write_natural;

/// What a run made (own choice).
#[derive(Clone, Copy, Debug, Drop)]
pub struct Made<'a> {
    /// How many steps.
    pub steps: u64,
    /// Which place of its block it ends at, from 0.
    pub index: u64,
    /// How often it executed each place of the program: each instruction and the end of each block, the blocks one
    /// after the other.
    pub counts: &'a [u64],
}

// Some words and a number.
fn write_row(page: &mut Vec<u8>, words: &[u8], n: u64) -> Result<(), OutOfMemory>
    ensures { OnOk result (page.new.items ≡ page.old.items ++ row words.now n) }
{
    page.extend_from_slice(words)?;
    write_natural(page, n)?;
    page.extend_from_slice(b"\n")?;
    Ok(())
}

fn word(kind: Kind) -> &'static [u8]
    ensures { result.now ≡ word kind }
{
    match kind {
        Kind::Add => b"  add ",
        Kind::Sub => b"  sub ",
        Kind::Mul => b"  mul ",
        Kind::Bnz => b"  bnz ",
        Kind::Ld => b"  ld ",
        Kind::Malloc => b"  malloc ",
        Kind::Mov => b"  mov ",
        Kind::St => b"  st ",
        Kind::Unpack => b"  unpack ",
        Kind::Jmp => b"  jmp ",
        Kind::Halt => b"  halt ",
    }
}

fn write_kind(page: &mut Vec<u8>, places: &[Place], kind: Kind) -> Result<(), OutOfMemory>
    ensures { OnOk result (page.new.items ≡ page.old.items ++ kind_row places.now kind) }
{
    let n = total(Measure::Of(kind), places);
    if n == 0 {
        return Ok(());
    }
    write_row(page, word(kind), n)
}

// How many steps were made of each kind of which there are some.
fn write_kinds(page: &mut Vec<u8>, places: &[Place]) -> Result<(), OutOfMemory>
    ensures { OnOk result (page.new.items ≡ page.old.items ++ kind_rows places.now kinds) }
{
    let kinds = [
        Kind::Add,
        Kind::Sub,
        Kind::Mul,
        Kind::Bnz,
        Kind::Ld,
        Kind::Malloc,
        Kind::Mov,
        Kind::St,
        Kind::Unpack,
        Kind::Jmp,
    ];
    for kind in kinds {
        write_kind(page, places, kind)?;
    }
    Ok(())
}

// The bytes of a place in a text.
fn bytes_at(text: &[u8], place: Span) -> &[u8]
    ensures { result.now ≡ bytes_at text.now place.start place.end }
{
    let start = text.len().min(place.start as usize);
    let behind = &text[start..];
    let size = place.end.saturating_sub(place.start);
    &behind[..behind.len().min(size as usize)]
}

// The number of the line of a byte.
fn line_of(text: &[u8], byte: u64) -> u64
    ensures { result ≡ line_number text.now byte }
{
    let place = text.len().min(byte as usize);
    let ends = text[..place].iter().filter(|b| **b == b'\n').count();
    ends as u64 + 1
}

// The label of a place's block, and which of its places it is.
fn write_name(page: &mut Vec<u8>, text: &[u8], place: &Place) -> Result<(), OutOfMemory>
    ensures { OnOk result (page.new.items ≡ page.old.items ++ name_text text.now place.now) }
{
    page.extend_from_slice(bytes_at(text, place.label))?;
    page.extend_from_slice(b".")?;
    write_natural(page, place.index)
}

fn write_place(page: &mut Vec<u8>, text: &[u8], place: &Place) -> Result<(), OutOfMemory>
    ensures { OnOk result (page.new.items ≡ page.old.items ++ place_row text.now place.now) }
{
    page.extend_from_slice(b"  ")?;
    write_natural(page, place.count)?;
    page.extend_from_slice(b" ")?;
    write_name(page, text, place)?;
    write_row(page, b", line ", line_of(text, place.start))
}

// The places that were executed most.
fn write_most(page: &mut Vec<u8>, text: &[u8], top: &[Place]) -> Result<(), OutOfMemory>
    ensures { OnOk result (page.new.items ≡ page.old.items ++ most_text text.now top.now) }
{
    page.extend_from_slice(b"most executed\n")?;
    for place in top {
        write_place(page, text, place)?;
    }
    Ok(())
}

// The blocks that were entered, and what was allocated.
fn write_totals(page: &mut Vec<u8>, places: &[Place], index: u64) -> Result<(), OutOfMemory>
    ensures { OnOk result (page.new.items ≡ page.old.items ++ totals_text places.now index) }
{
    let first = if index == 0 { 1 } else { 0 };
    let entries = total(Measure::Entries, places).saturating_add(first);
    write_row(page, b"blocks entered ", entries)?;
    write_row(page, b"tuples ", total(Measure::Of(Kind::Malloc), places))?;
    write_row(page, b"fields ", total(Measure::Fields, places))
}

/// The page on what a run of the program of a text made (own choice): how many instructions; how many of each kind, of
/// which there are some; how many blocks were entered, the first one at the start too; how many tuples and fields of
/// them were made; and the ten places that were executed most, each with its count, the label of its block and its
/// number in it, and its line. An error is want of memory.
pub fn page_of(
    alloc: Global,
    text: &[u8],
    program: &TProgram,
    made: &Made,
) -> Result<Vec<u8>, OutOfMemory>
    ensures { IfOk result (λ page_made. page_made.items
        ≡ page text.now (spanned_program program.now) made.now.steps made.now.index made.now.counts.now) }
{
    let places = places_of(alloc, &program.blocks, made.counts)?;
    let top = most_of(alloc, &places)?;
    let mut page = Vec::new(alloc);
    write_row(&mut page, b"instructions ", made.steps)?;
    write_kinds(&mut page, &places)?;
    write_totals(&mut page, &places, made.index)?;
    write_most(&mut page, text, &top)?;
    Ok(page)
}
