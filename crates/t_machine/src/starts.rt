// Where the data tuples start among the cells of the heap.
ghost use Rattle.std.specs.Prelude.{◌≡◌, ◌+◌, ◌<◌, length, map, slice_get, Some, IfOk};
ghost use Rattle.t_terms.specs.Read.{data_of};
ghost use Rattle.t_rules.specs.Erase.{erase_datum};
ghost use Rattle.t_collect.specs.Tuples.{starts_from};
ghost use Rattle.t_collect.specs.Words.{tuple_of, start_of};

use idx_core::OutOfMemory;
use std::alloc::Global;
use t_collect::address_of;
use t_terms::Data;

// Where each data tuple is to start.
pub(crate) fn load_starts(alloc: Global, tuples: &[Data]) -> Result<Vec<u32>, OutOfMemory>
    ensures { IfOk result (λ v. v.items ≡ starts_from 0 (map (map erase_datum) (data_of tuples.now))) }
{
    let mut starts = Vec::new(alloc);
    let mut start = 0;
    for tuple in tuples {
        starts.push(start)?;
        start = sum(start, tuple.fields.len())?;
    }
    Ok(starts)
}

// A sum that has to be one of 32 bits: for more cells or tuples memory is wanted.
pub(crate) fn sum(left: u32, right: usize) -> Result<u32, OutOfMemory>
    ensures { IfOk result (λ n. n ≡ left + right) }
{
    if right > (u32::MAX - left) as usize {
        return Err(OutOfMemory);
    }
    Ok(left + right as u32)
}

// The address of a data tuple. It has a number of 32 bits: for more tuples memory is wanted.
pub(crate) fn data_address(starts: &[u32], tuple: u64) -> Result<u64, OutOfMemory>
    requires { tuple < length starts.now }
    ensures { IfOk result (λ a. (tuple_of a ≡ tuple) × (slice_get starts.now (tuple_of a) ≡ Some (start_of a))) }
{
    if tuple > u32::MAX as u64 {
        return Err(OutOfMemory);
    }
    Ok(address_of(tuple as u32, starts[tuple as usize]))
}
