// Words as bytes.
ghost use Rattle.std.specs.Prelude.{◌≡◌, ◌++◌, OnOk};
ghost use Rattle.x_file.specs.Loaded.{words_bytes, AreWords};

use crate::segments::put_word;
use idx_core::OutOfMemory;

/// Puts words behind what there is, of each the lowest byte first. An error is want of memory.
pub fn put_words(content: &mut Vec<u8>, words: &[u64]) -> Result<(), OutOfMemory>
    ensures bytes { OnOk result (content.new.items ≡ content.old.items ++ words_bytes words.now) }
    ensures words { OnOk result (AreWords words.now) }
{
    for word in words {
        put_word(content, *word)?;
    }
    Ok(())
}
