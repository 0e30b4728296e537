// Names of values and of types.
ghost use Rattle.std.specs.Prelude.{◌≡◌, ◌+◌, ◌++◌, IfOk, OnOk};
ghost use Rattle.page_core.specs.Names.{type_name, type_names, value_name};

use crate::layout::write_separator;
use crate::numbers::write_natural;
use idx_core::{OutOfMemory, sum};

/// Puts the name of a value that has so many names around it at the end of a text: `x` and the number. An error is want
/// of memory.
pub fn write_value_name(text: &mut Vec<u8>, around: u64) -> Result<(), OutOfMemory>
    ensures { OnOk result (text.new.items ≡ text.old.items ++ value_name around) }
{
    text.push(b'x')?;
    write_natural(text, around)
}

/// Puts the name of a type that has so many type names around it at the end of a text: `a` to `z`, then `a1` to `z1`,
/// and so on. An error is want of memory.
pub fn write_type_name(text: &mut Vec<u8>, around: u64) -> Result<(), OutOfMemory>
    ensures { OnOk result (text.new.items ≡ text.old.items ++ type_name around) }
{
    let letter = (around % 26) as u8;
    text.push(b'a' + letter)?;
    let rounds = around / 26;
    if rounds == 0 {
        return Ok(());
    }
    write_natural(text, rounds)
}

/// Puts the names of `count` types, of which the first has `first` type names around it, in brackets at the end of a
/// text. An error is want of memory.
pub fn write_type_names(text: &mut Vec<u8>, first: u64, count: u64) -> Result<(), OutOfMemory>
    ensures { OnOk result (text.new.items ≡ text.old.items ++ type_names first count) }
{
    text.push(b'[')?;
    for i in 0..count {
        write_separator(text, i)?;
        let around = sum(first, i)?;
        write_type_name(text, around)?;
    }
    text.push(b']')?;
    Ok(())
}
