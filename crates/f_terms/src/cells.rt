// Whether a term makes, reads or assigns cells.
ghost use Rattle.std.specs.Prelude.{◌≡◌};
ghost use Rattle.f_terms.specs.Cells.{has_cells, is_of_cells};
ghost use Rattle.f_terms.specs.ReadTerm.{term_of};

use crate::node::{FShape, FTerm};

// Whether a form is one that makes, reads or assigns a cell.
fn is_of_cells(shape: &FShape) -> bool
    ensures { result ≡ is_of_cells shape.now }
{
    match shape {
        FShape::Ref(_) | FShape::Deref(_) | FShape::Assign(_, _) => true,
        _ => false,
    }
}

/// Whether a term has one of the forms that make, read or assign cells.
pub fn has_cells(term: &FTerm) -> bool
    ensures { result ≡ has_cells (term_of term.now) }
{
    for node in &term.nodes {
        if is_of_cells(&node.shape) {
            return true;
        }
    }
    false
}
