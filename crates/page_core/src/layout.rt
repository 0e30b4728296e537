// Margins, separators and signs.
ghost use Rattle.std.specs.Prelude.{◌≡◌, ◌++◌, OnOk};
ghost use Rattle.page_core.specs.Names.{margin, op_sign, separator};

use idx_core::{Op, OutOfMemory};

/// Puts the margin of a line at the end of a text: two spaces a level, and no more than 40 levels' worth (own choice,
/// so that a text is linear in its program). An error is want of memory.
pub fn write_margin(text: &mut Vec<u8>, levels: u64) -> Result<(), OutOfMemory>
    ensures { OnOk result (text.new.items ≡ text.old.items ++ margin levels) }
{
    for _ in 0..levels.min(40) {
        text.extend_from_slice(b"  ")?;
    }
    Ok(())
}

/// Puts a comma and a space at the end of a text, and nothing before the first item of a list. An error is want of
/// memory.
pub fn write_separator(text: &mut Vec<u8>, before: u64) -> Result<(), OutOfMemory>
    ensures { OnOk result (text.new.items ≡ text.old.items ++ separator before) }
{
    if before == 0 {
        return Ok(());
    }
    text.extend_from_slice(b", ")?;
    Ok(())
}

/// Puts the sign of an operation, between spaces, at the end of a text. An error is want of memory.
pub fn write_op(text: &mut Vec<u8>, op: Op) -> Result<(), OutOfMemory>
    ensures { OnOk result (text.new.items ≡ text.old.items ++ op_sign op) }
{
    match op {
        Op::Add => text.extend_from_slice(b" + ")?,
        Op::Sub => text.extend_from_slice(b" - ")?,
        Op::Mul => text.extend_from_slice(b" * ")?,
    }
    Ok(())
}
