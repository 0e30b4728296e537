// Numbers in decimal.
ghost use Rattle.std.specs.Prelude.{◌≡◌, ◌++◌, decimal, OnOk};
ghost use Rattle.page_core.specs.Names.{number};

use idx_core::OutOfMemory;
use itoa::Buffer;

/// Puts a natural number in decimal at the end of a text. An error is want of memory.
pub fn write_natural(text: &mut Vec<u8>, n: u64) -> Result<(), OutOfMemory>
    ensures { OnOk result (text.new.items ≡ text.old.items ++ decimal n) }
{
    let mut buffer = Buffer::new();
    text.extend_from_slice(buffer.format(n).as_bytes())?;
    Ok(())
}

/// Puts an integer in decimal at the end of a text, with a tilde before a negative one. An error is want of memory.
pub fn write_integer(text: &mut Vec<u8>, n: i64) -> Result<(), OutOfMemory>
    ensures { OnOk result (text.new.items ≡ text.old.items ++ number n) }
{
    if n < 0 {
        text.push(b'~')?;
    }
    write_natural(text, n.unsigned_abs())
}
