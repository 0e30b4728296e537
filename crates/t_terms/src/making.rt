// How programs are made.
ghost use Rattle.std.specs.Prelude.{◌≡◌};
ghost use Rattle.t_terms.specs.Read.{parts, spanned_parts};
ghost use Rattle.t_terms.specs.ReadProgram.{spanned_program};
ghost use Rattle.t_terms.specs.Whole.{WellFormedProgram};

use crate::block::Block;
use crate::data::Data;
use crate::integers::{blocks_fit, heap_fits};
use crate::program::TProgram;

impl TProgram {
    /// The program of these blocks and data tuples. Each value is read once: an integer that is read has 64 bits.
    pub fn new(blocks: Vec<Block>, heap: Vec<Data>) -> TProgram
        requires { WellFormedProgram (parts blocks.items heap.items) }
        ensures { spanned_program result ≡ spanned_parts blocks.items heap.items }
    {
        blocks_fit(&blocks);
        heap_fits(&heap);
        TProgram { blocks, heap }
    }
}
