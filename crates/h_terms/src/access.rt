// How programs are made and read.
ghost use Rattle.std.specs.Prelude.{◌≡◌};
ghost use Rattle.h_terms.specs.Bound.{HBound};
ghost use Rattle.h_terms.specs.Nodes.{h_blocks, h_tree, HRow, HRows};
ghost use Rattle.h_terms.specs.Program.{blocks_in, main_in};

use crate::node::{HBlock, HNode};
use crate::program::HProgram;

impl HProgram {
    /// The program of these blocks and this main term.
    pub fn new(blocks: Vec<HBlock>, main: Vec<HNode>) -> HProgram
        requires block_rows { HRows blocks.items }
        requires main_row { HRow main.items 1 }
        requires bound { ∥ HBound (h_blocks blocks.items) (h_tree main.items) ∥₁ }
        ensures blocks { blocks_in result ≡ h_blocks blocks.items }
        ensures main { main_in result ≡ h_tree main.items }
    {
        HProgram { blocks, main }
    }

    /// The blocks, by label.
    pub fn blocks(&self) -> &[HBlock]
        ensures same { h_blocks result.now ≡ blocks_in self.now }
        ensures rows { HRows result.now }
        ensures bound { ∥ HBound (blocks_in self.now) (main_in self.now) ∥₁ }
    {
        &self.blocks
    }

    /// The main term, which takes nothing.
    pub fn main(&self) -> &[HNode]
        ensures same { h_tree result.now ≡ main_in self.now }
        ensures row { HRow result.now 1 }
    {
        &self.main
    }
}
