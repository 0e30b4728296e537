// Programs.
ghost use Rattle.a_terms.specs.Arity.{ARow, ARows, a_row_prop, a_rows_prop};
ghost use Rattle.a_terms.specs.Bound.{ABound};
ghost use Rattle.a_terms.specs.NodeTrees.{a_prog, a_tree};

use crate::nodes::{ABlock, AData, ANode};

/// An allocated program: blocks and data tuples, each numbered from 0, and a main term. Each body is one term, and
/// the program is typed and within the bound of programs.
#[derive(Drop)]
pub struct AProgram {
    pub(crate) blocks: Vec<ABlock>,
    pub(crate) main: Vec<ANode>,
    pub(crate) tuples: Vec<AData>,
    ghost block_rows: { ARows blocks.items } by { a_rows_prop blocks.items },
    ghost main_row: { ARow main.items 1 } by { a_row_prop main.items 1 },
    ghost bound: { ∥ (ABound (a_prog blocks.items tuples.items) (a_tree main.items)) ∥₁ },
}
