// The parts of rows.
ghost use Rattle.std.specs.Prelude.{◌≡◌, ◌++◌, OnOk, codes, map, option_map};
ghost use Rattle.page_core.specs.Page.{dots};
ghost use Rattle.t_types.specs.Read.{file, tree};
ghost use Rattle.listing.specs.Listing.{bytes_of, cut, place_text, register_row, register_text, registers_text};
ghost use Rattle.listing.specs.Listing.{shown_byte};

use idx_core::{OutOfMemory, Span};
use page_core::{write_natural, write_separator};
use std::alloc::Global;
use t_trace::type_at;
use t_types::TType;

// How many bytes of a type are shown at most.
const MOST_SHOWN: usize = 1000;

// A line end, a tab, and any other sign below the printable ones as a space, and one above as a question mark.
fn shown_byte(byte: u8) -> u8
    ensures { result ≡ shown_byte byte }
{
    match byte {
        0..b' ' => b' ',
        b' '..=b'~' => byte,
        _ => b'?',
    }
}

// The bytes of a place in the text.
fn bytes_of(text: &[u8], place: Span) -> &[u8]
    ensures { result.now ≡ bytes_of text.now place }
{
    let behind = &text[text.len().min(place.start as usize)..];
    let size = place.end.saturating_sub(place.start) as usize;
    &behind[..behind.len().min(size)]
}

// Bytes on one line.
fn write_shown(page: &mut Vec<u8>, bytes: &[u8]) -> Result<(), OutOfMemory>
    ensures { OnOk result (page.new.items ≡ page.old.items ++ map shown_byte bytes.now) }
{
    for byte in bytes {
        page.push(shown_byte(*byte))?;
    }
    Ok(())
}

// The bytes of a place in the text, on one line.
pub(crate) fn write_bytes(page: &mut Vec<u8>, text: &[u8], place: Span) -> Result<(), OutOfMemory>
    ensures { OnOk result (page.new.items ≡ page.old.items ++ map shown_byte (bytes_of text.now place)) }
{
    write_shown(page, bytes_of(text, place))
}

// Two dots, where bytes are left out.
fn write_dots(page: &mut Vec<u8>, cut: bool) -> Result<(), OutOfMemory>
    ensures { OnOk result (page.new.items ≡ page.old.items ++ dots cut) }
{
    if cut {
        page.extend_from_slice(b"..")?;
    }
    Ok(())
}

// The beginning of a type, and two dots where there is more of it.
fn write_cut(page: &mut Vec<u8>, text: &[u8]) -> Result<(), OutOfMemory>
    ensures { OnOk result (page.new.items ≡ page.old.items ++ cut text.now) }
{
    let count = MOST_SHOWN.min(text.len());
    page.extend_from_slice(&text[..count])?;
    write_dots(page, text.len() > MOST_SHOWN)?;
    Ok(())
}

// A register and its type.
fn write_register(
    alloc: Global,
    page: &mut Vec<u8>,
    names: u64,
    r: u64,
    ty: &TType,
) -> Result<(), OutOfMemory>
    ensures { OnOk result (page.new.items ≡ page.old.items ++ register_text names r (tree ty.now)) }
{
    page.extend_from_slice(b"r")?;
    write_natural(page, r)?;
    page.extend_from_slice(b":")?;
    let text = type_at(alloc, ty, names)?;
    write_cut(page, &text)
}

// Registers with their types.
fn write_registers(
    alloc: Global,
    page: &mut Vec<u8>,
    names: u64,
    regs: &[(u64, TType)],
) -> Result<(), OutOfMemory>
    ensures { OnOk result (page.new.items ≡ page.old.items ++ registers_text names 0 (file regs.now)) }
{
    for (i, reg) in regs.iter().enumerate() {
        write_separator(page, i as u64)?;
        write_register(alloc, page, names, reg.0, &reg.1)?;
    }
    Ok(())
}

// The numbers of a block and of an instruction in it.
pub(crate) fn write_place(page: &mut Vec<u8>, block: u64, index: u64) -> Result<(), OutOfMemory>
    ensures { OnOk result (page.new.items ≡ page.old.items ++ place_text block index) }
{
    page.extend_from_slice(b"b")?;
    write_natural(page, block)?;
    page.extend_from_slice(b".")?;
    write_natural(page, index)
}

// All registers, in braces.
pub(crate) fn write_file(
    alloc: Global,
    page: &mut Vec<u8>,
    names: u64,
    regs: &[(u64, TType)],
) -> Result<(), OutOfMemory>
    ensures { OnOk result (page.new.items
        ≡ page.old.items ++ (codes " {" ++ (registers_text names 0 (file regs.now) ++ codes "}\n"))) }
{
    page.extend_from_slice(b" {")?;
    write_registers(alloc, page, names, regs)?;
    page.extend_from_slice(b"}\n")?;
    Ok(())
}

// The row of one register, where its type is known.
pub(crate) fn write_found(
    alloc: Global,
    page: &mut Vec<u8>,
    names: u64,
    r: u64,
    found: &Option<TType>,
) -> Result<(), OutOfMemory>
    ensures { OnOk result (page.new.items ≡ page.old.items ++ register_row names r (option_map tree found.now)) }
{
    let Some(ty) = found else {
        return Ok(());
    };
    page.extend_from_slice(b"    ")?;
    write_register(alloc, page, names, r, ty)?;
    page.extend_from_slice(b"\n")?;
    Ok(())
}
