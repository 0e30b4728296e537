// Names of types and labels, and what stands between the items of a list.
ghost use Rattle.std.specs.Prelude.{◌≡◌, ◌++◌, ◌∷◌, ◌+◌, ◌<◌, ◌≤◌, ◌^◌, decimal, OnOk};
ghost use Rattle.t_types.specs.WellFormed.{max_names};
ghost use Rattle.t_writer.specs.Lexeme.{render};
ghost use Rattle.t_writer.specs.Written.{separator, binds_written};

use crate::number::write_natural;
use idx_core::OutOfMemory;

// Nothing before the first item of a list, and a comma before each other.
pub(crate) fn write_separator(text: &mut Vec<u8>, before: usize) -> Result<(), OutOfMemory>
    ensures { OnOk result (text.new.items ≡ text.old.items ++ render (separator before)) }
{
    if before == 0 {
        return Ok(());
    }
    text.extend_from_slice(b", ")?;
    Ok(())
}

// A letter and a number.
pub(crate) fn write_name(text: &mut Vec<u8>, letter: u8, number: u64) -> Result<(), OutOfMemory>
    ensures { OnOk result (text.new.items ≡ text.old.items ++ (letter ∷ decimal number)) }
{
    text.push(letter)?;
    write_natural(text, number)
}

// The names that a binder of `count` types binds inside `depth` others, in brackets.
pub(crate) fn write_binds(text: &mut Vec<u8>, depth: u64, count: u64) -> Result<(), OutOfMemory>
    requires { depth + count ≤ max_names }
    ensures { OnOk result (text.new.items ≡ text.old.items ++ render (binds_written depth count)) }
{
    text.push(b'[')?;
    for i in 0..count {
        write_separator(text, i as usize)?;
        write_name(text, b'T', depth + i)?;
    }
    text.push(b']')?;
    Ok(())
}
