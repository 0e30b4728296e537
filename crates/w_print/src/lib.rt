//! The blocks of word code that write the integer of a program that has halted.
#![tactic(auto)]

mod blocks;

ghost use Rattle.w_print.specs.Prints.{PrintsInteger};
ghost use Rattle.w_print.specs.Words.{WordsSay};

pub use blocks::{digit_blocks, print_block, words};

/// From the first of the blocks the machine writes the integer of a register in decimal, and exits with 0.
pub fn blocks_print_integers()
    ensures { PrintsInteger }
{}

/// A text of at most 16 bytes stands in two words.
pub fn words_say_texts()
    ensures { WordsSay }
{}
