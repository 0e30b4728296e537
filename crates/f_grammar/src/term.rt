// The nodes of a term, made and read.
ghost use Rattle.std.specs.Prelude.{◌≡◌, ◌<◌, length};
ghost use Rattle.std.specs.List.{All};
ghost use Rattle.calc_core.specs.Arena.{InOrder};
ghost use Rattle.f_grammar.specs.Nodes.{kids, node_tree, tree_at};
ghost use Rattle.f_grammar.specs.Term.{count, node_at, tree_of};

use crate::raw::{RawNode, RawTerm};

impl RawTerm {
    /// The term of these nodes whose whole is the node `root`.
    pub fn new(nodes: Vec<RawNode>, root: u64) -> RawTerm
        requires ordered { InOrder kids nodes.items }
        requires inside { root < length nodes.items }
        ensures { tree_of result ≡ tree_at nodes.items root }
    {
        RawTerm { nodes, root }
    }

    /// The number of the node that is the whole.
    pub fn root(&self) -> u64
        ensures tree { tree_of self.now ≡ node_at self.now result }
        ensures inside { result < count self.now }
    {
        self.root
    }

    /// Node i. Its children stand before it.
    pub fn node(&self, i: u64) -> &RawNode
        requires { i < count self.now }
        ensures tree { node_at self.now i ≡ node_tree (node_at self.now) result.now }
        ensures before { All (λ k. k < i) (kids result.now) }
    {
        &self.nodes[i as usize]
    }
}
