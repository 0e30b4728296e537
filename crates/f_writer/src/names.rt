// Names by level.
ghost use Rattle.std.specs.Prelude.{◌≡◌, ◌++◌, OnOk};
ghost use Rattle.f_terms.specs.Text.{name_text};
ghost use Rattle.f_writer.specs.Notation.{value_text};

use crate::number::write_natural;
use idx_core::OutOfMemory;

// The name of a type by its level.
pub(crate) fn write_type_name(text: &mut Vec<u8>, level: u64) -> Result<(), OutOfMemory>
    ensures { OnOk result (text.new.items ≡ text.old.items ++ name_text level) }
{
    text.push(b't')?;
    write_natural(text, level)
}

// The name of a value by its level.
pub(crate) fn write_value_name(text: &mut Vec<u8>, level: u64) -> Result<(), OutOfMemory>
    ensures { OnOk result (text.new.items ≡ text.old.items ++ value_text level) }
{
    text.push(b'x')?;
    write_natural(text, level)
}
