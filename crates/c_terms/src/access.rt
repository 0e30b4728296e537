// How programs are made and read.
ghost use Rattle.std.specs.Prelude.{◌≡◌, []};
ghost use Rattle.c_terms.specs.C.{CTm};
ghost use Rattle.c_terms.specs.Bound.{CBound};
ghost use Rattle.c_terms.specs.Stream.{clin_t};
ghost use Rattle.c_terms.specs.Read.{written};
ghost use Rattle.c_terms.specs.Scope.{CScoped};
ghost use Rattle.c_terms.specs.Program.{IsC};
ghost use Rattle.c_terms.specs.Term.{term_of};

use crate::node::CNode;
use crate::program::CProgram;

impl CProgram {
    /// The program of these nodes, which are those of one term in scope alone.
    pub fn new(nodes: Vec<CNode>) -> CProgram
        requires { IsC nodes.items }
        ensures { (t : CTm) → CScoped 0 t → written nodes.items [] ≡ clin_t 0 t [] → term_of result ≡ t }
    {
        CProgram { nodes }
    }

    /// The nodes of the program's term.
    pub fn nodes(&self) -> &[CNode]
        ensures read { written result.now [] ≡ clin_t 0 (term_of self.now) [] }
        ensures bound { ∥ CBound (term_of self.now) ∥₁ }
    {
        &self.nodes
    }

    /// The nodes of the program's term, taken out of it.
    pub fn into_nodes(self) -> Vec<CNode>
        ensures read { written result.items [] ≡ clin_t 0 (term_of self) [] }
        ensures bound { ∥ CBound (term_of self) ∥₁ }
    {
        self.nodes
    }
}
