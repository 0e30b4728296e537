// Hoisted programs.
ghost use Rattle.h_terms.specs.Bound.{HBound};
ghost use Rattle.h_terms.specs.Nodes.{h_blocks, h_tree, HRow, HRows};
ghost use Rattle.h_terms.specs.Props.{h_row_prop, h_rows_prop};

use crate::node::{HBlock, HNode};

/// A hoisted program: blocks, each of which may name any of them, and a main term; typed, and within the bound of
/// programs.
#[derive(Drop)]
pub struct HProgram {
    pub(crate) blocks: Vec<HBlock>,
    pub(crate) main: Vec<HNode>,
    ghost block_rows: { HRows blocks.items } by { h_rows_prop blocks.items },
    ghost main_row: { HRow main.items 1 } by { h_row_prop main.items 1 },
    ghost bound: { ∥ HBound (h_blocks blocks.items) (h_tree main.items) ∥₁ },
}
