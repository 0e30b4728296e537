// The type variables that occur in each code, by a walk from the last node to the first.
ghost use Rattle.std.specs.Prelude.{◌≡◌, OnOk, IfOk, map};
ghost use Rattle.k_terms.specs.Read.{knode};
ghost use Rattle.c_rules.specs.TSweep as T;
ghost use Rattle.c_emit.specs.Swept.{tstate, lists};

use crate::free_state::TSweep;
use crate::type_levels::{type_levels, types_levels};
use c_rules::Levels;
use c_rules::levels::known;
use idx_core::OutOfMemory;
use k_terms::KNode;
use std::alloc::Global;
use std::collections::VecDeque;
use std::mem;

impl TSweep {
    // A code begins.
    fn open(&mut self, alloc: Global, depth: u64) -> Result<(), OutOfMemory>
        ensures { OnOk result
            (tstate self.new ≡ T.topened depth (tstate self.old).current (tstate self.old).outer
            (tstate self.old).found) }
    {
        match self.outer.pop_front() {
            None => Ok(()),
            Some(around) => {
                let body = mem::replace(&mut self.current, around);
                let kept = known(body, depth, alloc)?;
                self.current.extend_from_slice(&kept.list)?;
                self.found.push_front(kept)?;
                Ok(())
            }
        }
    }

    fn step(&mut self, alloc: Global, node: &KNode) -> Result<(), OutOfMemory>
        ensures { OnOk result (tstate self.new ≡ T.tswept (knode node.now) (tstate self.old)) }
    {
        match node {
            KNode::Code {
                depth,
                owes,
                args,
                ..
            } => {
                types_levels(args, *depth, *owes, &mut self.current)?;
                self.open(alloc, *depth)?;
                Ok(())
            }
            KNode::Pack {
                depth,
                hidden,
                shape,
                ..
            } => {
                type_levels(hidden, *depth, 0, &mut self.current)?;
                type_levels(shape, *depth, 0, &mut self.current)?;
                Ok(())
            }
            KNode::Call { depth, types, .. } => {
                types_levels(types, *depth, 0, &mut self.current)?;
                Ok(())
            }
            KNode::End => {
                let around = mem::replace(&mut self.current, Vec::new(alloc));
                self.outer.push_front(around)?;
                Ok(())
            }
            _ => Ok(()),
        }
    }
}

/// The type variables of the codes, in the order of the nodes. An error is want of memory.
pub fn tsweep(alloc: Global, nodes: &[KNode]) -> Result<VecDeque<Levels>, OutOfMemory>
    ensures { IfOk result (λ r. lists r.items ≡ (T.tsweep (map knode nodes.now)).found) }
{
    let mut walk = TSweep {
        current: Vec::new(alloc),
        outer: VecDeque::new(alloc),
        found: VecDeque::new(alloc),
    };
    let mut left = nodes.len();
    while left > 0 {
        left -= 1;
        walk.step(alloc, &nodes[left])?;
    }
    Ok(walk.found)
}
