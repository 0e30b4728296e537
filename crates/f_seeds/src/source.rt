// The source of a seed.
ghost use Rattle.std.specs.Prelude.{◌≡◌, ◌++◌, ◌<◌, IfOk, OnOk};
ghost use Rattle.f_seeds.specs.Source.{item_at, items_to, source};

use crate::item::{kind_of, number_of, write_item};
use idx_core::OutOfMemory;
use std::alloc::Global;

// How many items a source has.
const COUNT: u64 = 64;

// Puts the item at a place at the end of a text.
fn write_place(text: &mut Vec<u8>, seed: u64, place: u64) -> Result<(), OutOfMemory>
    requires { place < 64 }
    ensures { OnOk result (text.new.items ≡ text.old.items ++ item_at seed place) }
{
    write_item(text, kind_of(seed, place), number_of(seed, place))
}

/// The source of a seed (own choice): 64 items joined by ` + `, and a line end. The item at the place j, from 0 on,
/// has the kind `(seed + j) mod 6` and the number `(seed + 7 * j) mod 20`; these sums don't wrap. It is the text of a
/// program that evaluates to an integer within 1280 turns, as `sources_are_programs` says.
///
/// Errors: want of memory.
pub fn source_of(alloc: Global, seed: u64) -> Result<Vec<u8>, OutOfMemory>
    ensures { IfOk result (λ text. text.items ≡ source seed) }
{
    let mut text = Vec::new(alloc);
    write_place(&mut text, seed, 0)?;
    for place in 1..COUNT {
        text.extend_from_slice(b" + ")?;
        write_place(&mut text, seed, place)?;
    }
    text.push(b'\n')?;
    Ok(text)
}
