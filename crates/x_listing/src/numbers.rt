// Numbers in hexadecimal, and how wide a text is.
ghost use Rattle.std.specs.Prelude.{◌≡◌, ◌++◌, ◌<◌, ◌-◌, OnOk, false, replicate, length};
ghost use Rattle.std.specs.Fmt.{digit_glyph};
ghost use Rattle.x_listing.specs.Text as spec;

use idx_core::OutOfMemory;

// A digit in hexadecimal.
fn digit(n: u8) -> u8
    requires { n < 16 }
    ensures { result ≡ digit_glyph false n }
{
    if n < 10 { 48 + n } else { 87 + n }
}

// Puts bytes, each with two digits and a space behind it.
pub(crate) fn write_bytes(page: &mut Vec<u8>, bytes: &[u8]) -> Result<(), OutOfMemory>
    ensures { OnOk result (page.new.items ≡ page.old.items ++ spec.bytes_text bytes.now) }
{
    for byte in bytes {
        page.extend_from_slice(&[digit(*byte / 16), digit(*byte % 16), b' '])?;
    }
    Ok(())
}

// Puts so many signs.
pub(crate) fn write_signs(page: &mut Vec<u8>, count: usize, sign: u8) -> Result<(), OutOfMemory>
    ensures { OnOk result (page.new.items ≡ page.old.items ++ replicate count sign) }
{
    for _ in 0..count {
        page.push(sign)?;
    }
    Ok(())
}

// Puts a number in hexadecimal, as wide as this at least, with these signs in front.
pub(crate) fn write_wide(
    page: &mut Vec<u8>,
    n: u64,
    width: usize,
    sign: u8,
) -> Result<(), OutOfMemory>
    ensures { OnOk result (page.new.items ≡ page.old.items ++ spec.wide width sign (spec.hex n)) }
{
    let text = format!(in *page.allocator(); "{n:x}")?;
    let digits = text.as_bytes();
    write_signs(page, width.saturating_sub(digits.len()), sign)?;
    page.extend_from_slice(digits)?;
    Ok(())
}

// Puts a number in hexadecimal.
pub(crate) fn write_number(page: &mut Vec<u8>, n: u64) -> Result<(), OutOfMemory>
    ensures { OnOk result (page.new.items ≡ page.old.items ++ spec.number n) }
{
    let text = format!(in *page.allocator(); "0x{n:x}")?;
    page.extend_from_slice(text.as_bytes())?;
    Ok(())
}
