// The nodes of the terms that were read.
ghost use Rattle.std.specs.Prelude.{◌≡◌, ◌<◌, ◌≤◌, [], false, length, MatchResult};
ghost use Rattle.std.specs.List.{All};
ghost use Rattle.calc_core.specs.Arena.{InOrder};
ghost use Rattle.f_grammar.specs.Nodes.{kids};

use crate::RawNode;

/// How many nodes a term may have.
pub const NODES: usize = 100_000;

/// The nodes of all terms that were read, children before their parents, up to 100000. `full` says that there are more:
/// then the whole term is too large, and no further node is kept.
#[derive(Drop)]
pub(crate) struct Forest {
    pub nodes: Vec<RawNode>,
    pub full: bool,
    ghost ordered: { InOrder kids nodes.items },
    ghost few: { length nodes.items ≤ 100000 },
}
