// Blocks of code.

use crate::instr::{End, Instr};
use idx_core::Span;
use t_types::RegFile;

/// A block: the place of its label, how many types it owes, its register file, its instructions, each with its
/// place, and its end. The last type that it owes is type variable 0 of its file and of its first instruction.
#[derive(Drop)]
pub struct Block {
    pub name: Span,
    pub owes: u64,
    pub regs: RegFile,
    pub body: Vec<(Instr, Span)>,
    pub end: End,
    pub end_span: Span,
}
