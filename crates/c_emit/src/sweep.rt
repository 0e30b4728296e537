// The free variables of each code, by a walk from the last node to the first.
ghost use Rattle.std.specs.Prelude.{◌≡◌, OnOk, IfOk, map};
ghost use Rattle.k_terms.specs.Read.{knode};
ghost use Rattle.c_rules.specs.Sweep as W;
ghost use Rattle.c_emit.specs.Swept.{state, founds};

use crate::free_state::{Found, Sweep};
use c_rules::levels::{has, known};
use idx_core::OutOfMemory;
use k_terms::KNode;
use std::alloc::Global;
use std::collections::VecDeque;
use std::mem;

impl Sweep {
    fn step(&mut self, alloc: Global, node: &KNode) -> Result<(), OutOfMemory>
        ensures { OnOk result (state self.new ≡ W.swept (knode node.now) (state self.old)) }
    {
        match node {
            KNode::Var(l) => {
                self.current.push(*l)?;
                Ok(())
            }
            KNode::Code { level, .. } => match self.outer.pop_front() {
                None => Ok(()),
                Some(around) => {
                    let body = mem::replace(&mut self.current, around);
                    let own = has(&body, *level);
                    let kept = known(body, *level, alloc)?;
                    self.current.extend_from_slice(&kept.list)?;
                    self.found.push_front(Found { kept, own })?;
                    Ok(())
                }
            },
            KNode::End => {
                let around = mem::replace(&mut self.current, Vec::new(alloc));
                self.outer.push_front(around)?;
                Ok(())
            }
            _ => Ok(()),
        }
    }
}

/// What is found of the codes, in the order of the nodes. An error is want of memory.
pub fn sweep(alloc: Global, nodes: &[KNode]) -> Result<VecDeque<Found>, OutOfMemory>
    ensures { IfOk result (λ r. founds r.items ≡ (W.sweep (map knode nodes.now)).found) }
{
    let mut walk = Sweep {
        current: Vec::new(alloc),
        outer: VecDeque::new(alloc),
        found: VecDeque::new(alloc),
    };
    let mut left = nodes.len();
    while left > 0 {
        left -= 1;
        walk.step(alloc, &nodes[left])?;
    }
    Ok(walk.found)
}
