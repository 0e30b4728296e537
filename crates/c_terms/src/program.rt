// Closed programs.
ghost use Rattle.c_terms.specs.Bound.{CBound};
ghost use Rattle.c_terms.specs.Program.{closed_of, CWhole, whole_is_one};

use crate::node::CNode;

/// A closed program: the nodes of one term, which is typed and within the bound of programs.
#[derive(Drop)]
pub struct CProgram {
    pub(crate) nodes: Vec<CNode>,
    ghost whole: { CWhole nodes.items } by { whole_is_one nodes.items },
    ghost bound: { ∥ CBound (closed_of nodes.items) ∥₁ },
}
