// Programs of word code.

use crate::instr::{WEnd, WInstr};

/// A block: its instructions, and its end.
#[derive(Drop)]
pub struct WBlock {
    pub body: Vec<WInstr>,
    pub end: WEnd,
}

/// A word of the memory at the start: a number, or the address of a label.
#[derive(Clone, Copy, Debug, Drop)]
pub enum WDatum {
    Number(u64),
    Label(u64),
}

/// A program: its blocks, of which it starts in the first; where its memory begins, the first words there, and how many
/// words there are in all. Those that are not given are 0.
#[derive(Drop)]
pub struct WProgram {
    pub blocks: Vec<WBlock>,
    pub base: u64,
    pub image: Vec<WDatum>,
    pub size: u64,
}
