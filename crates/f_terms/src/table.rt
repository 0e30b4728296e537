// The nodes of a term with a table of types beside it.
ghost use Rattle.std.specs.Prelude.{◌≡◌, ◌<◌, length};
ghost use Rattle.std.specs.List.{All};
ghost use Rattle.f_terms.specs.NotedTerm.{noted_at, noted_node};
ghost use Rattle.f_terms.specs.ReadTerm.{count};
ghost use Rattle.f_terms.specs.Shape.{kids};
ghost use Rattle.f_terms.specs.NotedTerm.{TypesAside};

use crate::node::{FNode, FTerm};
use crate::types::FType;

/// Node i and its type in the table, where node i has place i.
pub fn typed_node<'a>(term: &'a FTerm, types: &'a [FType], i: u64) -> (&'a FNode, &'a FType)
    requires inside { i < count term.now }
    requires table { i < length types.now }
    ensures tree { noted_at term.now types.now i ≡
        noted_node (noted_at term.now types.now) (result.0.now, result.1.now) }
    ensures before { All (λ k. k < i) (kids result.0.now) }
{
    (&term.nodes[i as usize], &types[i as usize])
}

/// A term with types beside it is the term, types aside.
pub fn types_aside()
    ensures { TypesAside }
{}
