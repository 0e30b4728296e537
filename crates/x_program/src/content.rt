// The data of the file: zeros for the slots, and the words of the program.
ghost use Rattle.std.specs.Prelude.{◌≡◌, ◌++◌, map, replicate, OnOk, IfOk};
ghost use Rattle.w_terms.specs.Machine.{datum_word};
ghost use Rattle.x_pass.specs.Layout.{place_of};
ghost use Rattle.x_program.specs.Made.{data_words};

use idx_core::OutOfMemory;
use std::alloc::Global;
use w_terms::WDatum;
use x_pass::{Labels, place_at};

fn word_of(labels: &Labels, datum: WDatum) -> u64
    ensures { result ≡ datum_word (place_of labels.now) datum }
{
    match datum {
        WDatum::Number(number) => number,
        WDatum::Label(l) => place_at(labels, l),
    }
}

// Puts words of the program.
fn put_image(words: &mut Vec<u64>, labels: &Labels, image: &[WDatum]) -> Result<(), OutOfMemory>
    ensures { OnOk result
        (words.new.items ≡ words.old.items ++ map (datum_word (place_of labels.now)) image.now) }
{
    for datum in image {
        words.push(word_of(labels, *datum))?;
    }
    Ok(())
}

// Puts so many zeros.
fn put_slots(words: &mut Vec<u64>, registers: u64) -> Result<(), OutOfMemory>
    ensures { OnOk result (words.new.items ≡ words.old.items ++ replicate registers 0) }
{
    for _ in 0..registers {
        words.push(0)?;
    }
    Ok(())
}

// All words of the file's data.
pub(crate) fn words_of(
    alloc: Global,
    registers: u64,
    labels: &Labels,
    image: &[WDatum],
) -> Result<Vec<u64>, OutOfMemory>
    ensures { IfOk result (λ words. words.items ≡ data_words (place_of labels.now) registers image.now) }
{
    let mut words = Vec::new(alloc);
    put_slots(&mut words, registers)?;
    put_image(&mut words, labels, image)?;
    Ok(words)
}
