// Programs.
ghost use Rattle.std.specs.Prelude.{map};
ghost use Rattle.k_terms.specs.Bound.{KBound};
ghost use Rattle.k_terms.specs.Decode.{decode};
ghost use Rattle.k_terms.specs.Nodes.{KWhole, whole_is_one};
ghost use Rattle.k_terms.specs.Read.{knode};

use crate::node::KNode;

/// A typed term that keeps the bound of programs: the nodes are those of exactly one tree.
#[derive(Drop)]
pub struct KProgram {
    pub(crate) nodes: Vec<KNode>,
    pub ghost whole: { KWhole nodes.items } by { whole_is_one nodes.items },
    pub ghost fits: { ∥ KBound (decode (map knode nodes.items)) ∥₁ },
}

impl KProgram {
    ghost use Rattle.std.specs.Prelude.{◌≡◌, [], map};
    ghost use Rattle.k_terms.specs.Bound.{KBound};
    ghost use Rattle.k_terms.specs.Decode.{decode};
    ghost use Rattle.k_terms.specs.Nodes.{KWhole};
    ghost use Rattle.k_terms.specs.Read.{knode};
    ghost use Rattle.k_terms.specs.Size.{codes_t};
    ghost use Rattle.k_terms.specs.Stream.{klin_t};
    ghost use Rattle.k_terms.specs.Whole.{term_of};

    /// The program of the nodes of a typed term that keeps the bound.
    pub fn new(nodes: Vec<KNode>) -> KProgram
        requires whole { KWhole nodes.items }
        requires fits { ∥ KBound (decode (map knode nodes.items)) ∥₁ }
        ensures { term_of result ≡ decode (map knode nodes.items) }
    {
        KProgram { nodes }
    }

    /// Its nodes.
    pub fn nodes(&self) -> &[KNode]
        ensures { map knode result.now ≡ klin_t 0 0 [] (term_of self.now) [] }
    {
        &self.nodes
    }
}
