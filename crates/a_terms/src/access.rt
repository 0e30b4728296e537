// How programs are made and read.
ghost use Rattle.std.specs.Prelude.{◌≡◌};
ghost use Rattle.a_terms.specs.Arity.{ARow, ARows};
ghost use Rattle.a_terms.specs.Bound.{ABound};
ghost use Rattle.a_terms.specs.NodeTrees.{a_blocks, a_data, a_prog, a_tree};
ghost use Rattle.a_terms.specs.Program.{program_in, main_in};

use crate::nodes::{ABlock, AData, ANode};
use crate::program::AProgram;

impl AProgram {
    /// The program of these blocks, this main term and these data tuples.
    pub fn new(blocks: Vec<ABlock>, main: Vec<ANode>, tuples: Vec<AData>) -> AProgram
        requires block_rows { ARows blocks.items }
        requires main_row { ARow main.items 1 }
        requires bound { ∥ (ABound (a_prog blocks.items tuples.items) (a_tree main.items)) ∥₁ }
        ensures program { program_in result ≡ a_prog blocks.items tuples.items }
        ensures main { main_in result ≡ a_tree main.items }
    {
        AProgram {
            blocks,
            main,
            tuples,
        }
    }

    /// The blocks, by label.
    pub fn blocks(&self) -> &[ABlock]
        ensures same { a_blocks result.now ≡ (program_in self.now).blocks }
        ensures rows { ARows result.now }
        ensures bound { ∥ (ABound (program_in self.now) (main_in self.now)) ∥₁ }
    {
        &self.blocks
    }

    /// The nodes of the main term, which takes nothing.
    pub fn main(&self) -> &[ANode]
        ensures same { a_tree result.now ≡ main_in self.now }
        ensures row { ARow result.now 1 }
    {
        &self.main
    }

    /// The data tuples, by number.
    pub fn data(&self) -> &[AData]
        ensures same { a_data result.now ≡ (program_in self.now).tuples }
    {
        &self.tuples
    }
}
