// The values of one node.
ghost use Rattle.std.specs.Prelude.{◌≡◌, ℕ, [], IfOk, length};
ghost use Rattle.h_terms.specs.Nodes.{h_blocks, reads};
ghost use Rattle.a_pass.specs.Scope.{knowns, scope};
ghost use Rattle.a_pass.specs.Emits.{Made};

use crate::parts::part;
use crate::state::{Around, Run};
use a_terms::{AData, ANode};
use h_terms::HPart;
use idx_core::OutOfMemory;
use std::alloc::Global;

// No values yet, where there are so many variables.
fn none_read<'a>(alloc: Global, depth: u64) -> Run<'a>
    ensures values { result.values.items ≡ [] }
    ensures types { result.types.items ≡ [] }
    ensures depth { result.depth ≡ depth }
{
    Run {
        values: Vec::new(alloc),
        types: Vec::new(alloc),
        depth,
    }
}

// The values of a node, where there are so many variables before; what makes their tuples is written before.
pub(crate) fn read<'a>(
    around: &Around<'_, 'a>,
    parts: &'a [HPart],
    depth: u64,
    tuples: &mut Vec<AData>,
    out: &mut Vec<ANode>,
) -> Result<Run<'a>, OutOfMemory>
    ensures { IfOk result (λ r. Made (h_blocks around.now.blocks.now)
        (scope around.now.binders around.now.names.now) (knowns around.now.names.now) (length tuples.old.items) depth
        (reads [] parts.now) out.old.items tuples.old.items r.values.items r.types.items r.depth out.new.items
        tuples.new.items) }
{
    let mut run = none_read(around.alloc, depth);
    for one in parts {
        run = part(around, one, run, tuples, out)?;
    }
    Ok(run)
}
