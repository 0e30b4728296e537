// Programs.
ghost use Rattle.t_terms.specs.Read.{parts};
ghost use Rattle.t_terms.specs.Whole.{Whole, whole_prop};

use crate::block::Block;
use crate::data::Data;

/// A program: blocks, and the tuples of the heap at the start. Blocks and data are numbered from 0, each by itself,
/// and the machine starts in the first block.
/// It has a block; its labels, type indices, registers and field numbers are in range, and its integers have 64 bits;
/// each of its register files has its registers in ascending order, each once; no place is under more than
/// 4611686018427387904 type names; and in data the types are closed and no value names a register.
#[derive(Drop)]
pub struct TProgram {
    pub blocks: Vec<Block>,
    pub heap: Vec<Data>,
    ghost whole: { Whole (parts blocks.items heap.items) } by { whole_prop (parts blocks.items heap.items) },
}
