// The conversion of a term.
ghost use Rattle.std.specs.Prelude.{◌≡◌, ◌≤◌, IfOk, map, length};
ghost use Rattle.f_terms.specs.NotedTerm.{noted_of};
ghost use Rattle.f_terms.specs.ReadTerm.{count};
ghost use Rattle.k_terms.specs.Read.{knode};
ghost use Rattle.k_pass.specs.Emit.{emit_of};

use crate::give::give;
use crate::resume::resume;
use crate::walk::walk;
use crate::work::{Control, Given, Part, Work};
use f_terms::{FTerm, FType};
use idx_core::OutOfMemory;
use k_terms::KNode;
use std::alloc::Global;

/// The nodes of the conversion of a term, where the type of each node stands in a table at its number.
pub fn emit(alloc: Global, term: &FTerm, types: &[FType]) -> Result<Vec<KNode>, OutOfMemory>
    requires table { count term.now ≤ length types.now }
    ensures { IfOk result (λ r. map knode r.items ≡ emit_of (noted_of term.now types.now)) }
{
    let mut work = Work {
        out: Vec::new(alloc),
        frames: Vec::new(alloc),
        pending: Vec::new(alloc),
        names: Vec::new(alloc),
        levels: Vec::new(alloc),
        types: 0,
    };
    let mut control = Control::Walk {
        node: term.count() - 1,
        depth: 0,
    };
    loop {
        match control {
            Control::Walk { node, depth } => {
                control = walk(alloc, term, types, &mut work, Part { node, depth })?;
            }
            Control::Give { atom, depth } => {
                control = give(alloc, &mut work, Given { atom, depth })?;
            }
            Control::Ended => match resume(alloc, &mut work)? {
                Some(next) => {
                    control = next;
                }
                None => {
                    return Ok(work.out);
                }
            },
        }
    }
}
