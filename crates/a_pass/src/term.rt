// Whole terms.
ghost use Rattle.std.specs.Prelude.{◌≡◌, ℕ, List, [], ◌++◌, IfOk, OnOk, length};
ghost use Rattle.c_terms.specs.Read.{ctys};
ghost use Rattle.h_terms.specs.Nodes.{h_blocks, h_tree, HRow};
ghost use Rattle.a_terms.specs.Typing.{types_of};
ghost use Rattle.a_terms.specs.NodeTrees.{a_data, a_tree};
ghost use Rattle.a_terms.specs.Arity.{ARow};
ghost use Rattle.a_laws.specs.Allocate.{alloc_t, arg_levels, arg_depth, atypes, data_t, n_t};
ghost use Rattle.a_pass.specs.Scope.{knowns, scope, Under};

use crate::nodes::step;
use crate::state::{Kept, Name, Place, Progress};
use a_terms::{AData, ANode};
use c_terms::CType;
use h_terms::{HBlock, HNode};
use idx_core::OutOfMemory;
use std::alloc::Global;

// A term whose names so far are these, each of them one variable.
fn walk<'a>(
    alloc: Global,
    blocks: &'a [HBlock],
    nodes: &'a [HNode],
    names: Vec<Name<'a>>,
    tuples: &mut Vec<AData>,
) -> Result<Vec<ANode>, OutOfMemory>
    requires one { HRow nodes.now 1 }
    requires bound { Under 0 names.items }
    ensures tree { IfOk result (λ r. a_tree r.items ≡ alloc_t (h_blocks blocks.now) (scope 0 names.entry.items)
        (knowns names.entry.items) (length tuples.old.items) (length names.entry.items) (h_tree nodes.now)) }
    ensures keeps { OnOk result (a_data tuples.new.items ≡ a_data tuples.old.items ++
        data_t (h_blocks blocks.now) (scope 0 names.entry.items)
        (knowns names.entry.items) (length tuples.old.items) (length names.entry.items) (h_tree nodes.now)) }
    ensures one { IfOk result (λ r. ARow r.items 1) }
{
    let count = names.len();
    let out = Vec::new(alloc);
    let mut places = Vec::new(alloc);
    places.push(Place {
        depth: count as u64,
        names: count,
        binders: 0,
    })?;
    let mut progress = Progress {
        alloc,
        names,
        places,
        nodes: out,
    };
    for node in nodes {
        let Some(place) = progress.places.pop() else {
            unreachable!()
        };
        progress.names.truncate(place.names);
        step(blocks, node, place, &mut progress, tuples)?;
    }
    let Progress { nodes: made, .. } = progress;
    Ok(made)
}

// The names of the arguments, which have the first knowns.
fn arguments<'a>(alloc: Global, args: &'a [CType]) -> Result<Vec<Name<'a>>, OutOfMemory>
    ensures knowns { IfOk result (λ r. knowns r.items ≡ arg_levels 0 [] (ctys args.now)) }
    ensures scope { IfOk result (λ r. scope 0 r.items ≡ types_of (atypes (ctys args.now)) []) }
    ensures depth { IfOk result (λ r. length r.items ≡ arg_depth 0 (ctys args.now)) }
    ensures bound { IfOk result (λ r. Under 0 r.items) }
{
    let mut names = Vec::new(alloc);
    for (level, arg) in args.iter().enumerate() {
        names.push(Name {
            level: level as u64,
            ty: Kept::Lent(arg),
            under: 0,
            constant: None,
        })?;
    }
    Ok(names)
}

// The body of a block with these arguments.
pub(crate) fn body<'a>(
    alloc: Global,
    blocks: &'a [HBlock],
    args: &'a [CType],
    nodes: &'a [HNode],
    tuples: &mut Vec<AData>,
) -> Result<Vec<ANode>, OutOfMemory>
    requires one { HRow nodes.now 1 }
    ensures tree { IfOk result (λ r. a_tree r.items ≡ alloc_t (h_blocks blocks.now)
        (types_of (atypes (ctys args.now)) []) (arg_levels 0 [] (ctys args.now))
        (length tuples.old.items) (arg_depth 0 (ctys args.now)) (h_tree nodes.now)) }
    ensures keeps { OnOk result (a_data tuples.new.items ≡ a_data tuples.old.items ++ data_t (h_blocks blocks.now)
        (types_of (atypes (ctys args.now)) []) (arg_levels 0 [] (ctys args.now))
        (length tuples.old.items) (arg_depth 0 (ctys args.now)) (h_tree nodes.now)) }
    ensures one { IfOk result (λ r. ARow r.items 1) }
{
    let names = arguments(alloc, args)?;
    let out = walk(alloc, blocks, nodes, names, tuples)?;
    Ok(out)
}

pub(crate) fn main_term(
    alloc: Global,
    blocks: &[HBlock],
    nodes: &[HNode],
    tuples: &mut Vec<AData>,
) -> Result<Vec<ANode>, OutOfMemory>
    requires one { HRow nodes.now 1 }
    ensures tree { IfOk result (λ r. a_tree r.items ≡
        alloc_t (h_blocks blocks.now) [] [] (length tuples.old.items) 0 (h_tree nodes.now)) }
    ensures keeps { OnOk result (a_data tuples.new.items ≡ a_data tuples.old.items ++
        data_t (h_blocks blocks.now) [] [] (length tuples.old.items) 0 (h_tree nodes.now)) }
    ensures one { IfOk result (λ r. ARow r.items 1) }
{
    let out = walk(alloc, blocks, nodes, Vec::new(alloc), tuples)?;
    Ok(out)
}
