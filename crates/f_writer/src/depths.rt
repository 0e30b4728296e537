// How many names are around a position.
ghost use Rattle.std.specs.Prelude.{◌≡◌, ◌+◌, IfOk};

use idx_core::{OutOfMemory, sum};

/// How many type names and how many value names are around a position.
#[derive(Clone, Copy, Drop)]
pub(crate) struct Depths {
    pub(crate) types: u64,
    pub(crate) values: u64,
}

// With so many names more.
pub(crate) fn with_more(depths: Depths, types: u64, values: u64) -> Result<Depths, OutOfMemory>
    ensures types { IfOk result (λ inner. inner.types ≡ depths.types + types) }
    ensures values { IfOk result (λ inner. inner.values ≡ depths.values + values) }
{
    let types = sum(depths.types, types)?;
    let values = sum(depths.values, values)?;
    Ok(Depths { types, values })
}
