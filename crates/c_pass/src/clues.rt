// What both walks from the last node have found.
ghost use Rattle.std.specs.Prelude.{◌≡◌, IfOk};
ghost use Rattle.c_rules.specs.TSweep as T;
ghost use Rattle.c_emit.specs.Swept.{founds, lists};
ghost use Rattle.c_pass.specs.Read.{clues_of};

use crate::state::Clue;
use c_emit::Found;
use c_rules::Levels;
use idx_core::OutOfMemory;
use std::alloc::Global;
use std::collections::VecDeque;

/// What both have found of each code.
pub fn join(
    alloc: Global,
    found: VecDeque<Found>,
    types: VecDeque<Levels>,
) -> Result<VecDeque<Clue>, OutOfMemory>
    ensures { IfOk result (λ r. clues_of r.items ≡ T.zipped (founds found.items) (lists types.items)) }
{
    let mut found = found;
    let mut types = types;
    let mut made = VecDeque::new(alloc);
    while let Some(f) = found.pop_front() {
        let Found { kept, own } = f;
        match types.pop_front() {
            None => return Ok(made),
            Some(types) => made.push_back(Clue { kept, own, types })?,
        }
    }
    Ok(made)
}
