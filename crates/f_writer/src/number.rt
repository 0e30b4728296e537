// Numbers in decimal.
ghost use Rattle.std.specs.Prelude.{◌≡◌, ◌++◌, decimal, OnOk};
ghost use Rattle.f_writer.specs.Notation.{integer_text};

use idx_core::OutOfMemory;
use itoa::Buffer;

// A natural number in decimal.
pub(crate) fn write_natural(text: &mut Vec<u8>, n: u64) -> Result<(), OutOfMemory>
    ensures { OnOk result (text.new.items ≡ text.old.items ++ decimal n) }
{
    let mut buffer = Buffer::new();
    text.extend_from_slice(buffer.format(n).as_bytes())?;
    Ok(())
}

// An integer in decimal, with a tilde before a negative one.
pub(crate) fn write_integer(text: &mut Vec<u8>, value: i64) -> Result<(), OutOfMemory>
    ensures { OnOk result (text.new.items ≡ text.old.items ++ integer_text value) }
{
    if value >= 0 {
        return write_natural(text, value.unsigned_abs());
    }
    text.push(b'~')?;
    write_natural(text, value.unsigned_abs())
}
