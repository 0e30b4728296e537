// Numbers in decimal.
ghost use Rattle.std.specs.Prelude.{◌≡◌, ◌++◌, decimal, OnOk, OnErr};
ghost use Rattle.t_writer.specs.Lexeme.{number_text};

use idx_core::OutOfMemory;
use itoa::Buffer;

/// Puts a natural number in decimal at the end of a text. Where memory is wanted, the text is as before.
pub fn write_natural(text: &mut Vec<u8>, n: u64) -> Result<(), OutOfMemory>
    ensures written { OnOk result (text.new.items ≡ text.old.items ++ decimal n) }
    ensures kept { OnErr result (text.new.items ≡ text.old.items) }
{
    let mut buffer = Buffer::new();
    text.extend_from_slice(buffer.format(n).as_bytes())?;
    Ok(())
}

/// Puts an integer in decimal at the end of a text, with a tilde before a negative one. Where memory is wanted, the
/// text is as before.
pub fn write_integer(text: &mut Vec<u8>, value: i64) -> Result<(), OutOfMemory>
    ensures written { OnOk result (text.new.items ≡ text.old.items ++ number_text value) }
    ensures kept { OnErr result (text.new.items ≡ text.old.items) }
{
    if value >= 0 {
        return write_natural(text, value.unsigned_abs());
    }
    text.push(b'~')?;
    if let Err(wanted) = write_natural(text, value.unsigned_abs()) {
        text.pop();
        return Err(wanted);
    }
    Ok(())
}
