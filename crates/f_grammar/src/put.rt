// One node more.
ghost use Rattle.std.specs.Prelude.{◌≡◌, ◌<◌, false, length, MatchResult};
ghost use Rattle.std.specs.List.{All};
ghost use Rattle.f_grammar.specs.Nodes.{children, kids};
ghost use Rattle.f_grammar.specs.declared.cursor.Stopped.TheVariants as stopped;
ghost use Rattle.f_grammar.specs.Forest.{Adds, Puts, span_from};

use crate::forest::{Forest, NODES};
use crate::part::Part;
use crate::{RawNode, RawShape, Stopped};
use idx_core::Span;

// One node more, where it can be kept.
fn add(forest: &mut Forest, node: RawNode) -> Result<(), Stopped>
    requires { forest.old.full ≡ false → All (λ k. k < length forest.old.nodes.items) (kids node) }
    ensures { MatchResult result (λ u. Adds forest.old forest.new node) (λ e. e ≡ stopped.Memory) }
{
    let count = forest.nodes.len();
    if forest.full || count >= NODES {
        forest.full = true;
        return Ok(());
    }
    forest.nodes.push(node)?;
    Ok(())
}

/// The term of this form, from `start` to `end`.
pub(crate) fn put(
    forest: &mut Forest,
    shape: RawShape,
    start: u64,
    end: u64,
) -> Result<Part, Stopped>
    requires { forest.old.full ≡ false → All (λ k. k < length forest.old.nodes.items) (children shape) }
    ensures { MatchResult result (λ p. Puts forest.old forest.new shape (span_from start end) p)
        (λ e. e ≡ stopped.Memory) }
{
    let place = Span { start, end };
    let node = forest.nodes.len() as u64;
    add(forest, RawNode { span: place, shape })?;
    Ok(Part {
        node,
        place,
        start,
        end,
    })
}
