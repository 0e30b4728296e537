// Programs.
ghost use Rattle.std.specs.Prelude.{◌≡◌, IfOk};
ghost use Rattle.k_terms.specs.Whole.{term_of};
ghost use Rattle.kc_notation.specs.Notation.{k_text};

use crate::blank;
use crate::cps_walk::step;
use idx_core::OutOfMemory;
use k_terms::KProgram;
use std::alloc::Global;

/// The text of a converted program (own choice), with the type of what each `let` binds if `typed`, in time by its
/// length, however deep its terms nest: a line a declaration, names by how many are around them, two spaces a level up
/// to 40 levels. Errors: want of memory.
pub fn write_cps(alloc: Global, program: &KProgram, typed: bool) -> Result<Vec<u8>, OutOfMemory>
    ensures { IfOk result (λ text. text.items ≡ k_text typed (term_of program.now)) }
{
    let nodes = program.nodes();
    let mut page = blank(alloc)?;
    for node in nodes {
        step(&mut page, typed, node)?;
    }
    let whole = page.shut()?;
    let text = page.pieces.text(whole)?;
    Ok(text)
}
