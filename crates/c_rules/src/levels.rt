// Levels of names.
ghost use Rattle.std.specs.Prelude.{◌≡◌, ℕ, ◌+◌, ◌<◌, ◌&&◌, [], nat_lt, drop, slice_index_or, IfOk, length};
ghost use Rattle.c_rules.specs.Climbs.{Climbs};
ghost use Rattle.c_rules.specs.Emit as E;
ghost use Rattle.c_rules.specs.Sweep as W;
ghost use Rattle.c_rules.specs.Know as N;

use idx_core::OutOfMemory;
use std::alloc::Global;

/// Levels in ascending order, each once.
#[derive(Drop)]
pub struct Levels {
    pub list: Vec<u64>,
    ghost climbs: { Climbs list.items },
}

impl Levels {
    /// No levels.
    pub fn none(alloc: Global) -> Levels
        ensures { result.list.items ≡ [] }
    {
        Levels {
            list: Vec::new(alloc),
        }
    }

    /// How many are below l.
    pub fn below(&self, l: u64) -> u64
        ensures { result ≡ E.below l self.now.list.items }
    {
        match self.list.binary_search(&l) {
            Ok(at) => at as u64,
            Err(at) => at as u64,
        }
    }

    /// How many are above l.
    pub fn above(&self, l: u64) -> u64
        ensures { result ≡ N.above l self.now.list.items }
    {
        let count = self.list.len();
        match self.list.binary_search(&l) {
            Ok(at) => (count - at - 1) as u64,
            Err(at) => (count - at) as u64,
        }
    }
}

/// Whether a level is in a list.
pub fn has(levels: &[u64], l: u64) -> bool
    ensures { result ≡ W.has l levels.now }
{
    for x in levels {
        if l == *x {
            return true;
        }
    }
    false
}

// Whether the level at a place is below d and another one follows.
fn fresh(levels: &[u64], i: usize, x: u64, d: u64) -> bool
    requires inside { i < length levels.now }
    requires is { x ≡ slice_index_or levels.now i x }
    ensures { result ≡ (nat_lt x d && W.differs x (drop (i + 1) levels.now)) }
{
    if x < d {
        let rest = &levels[i + 1..];
        match rest.first() {
            None => true,
            Some(y) => x != *y,
        }
    } else {
        false
    }
}

// Of levels in order, those below d, each once.
fn thin(levels: &[u64], d: u64, alloc: Global) -> Result<Vec<u64>, OutOfMemory>
    ensures { IfOk result (λ r. r.items ≡ W.thin d levels.now) }
{
    let mut made = Vec::new(alloc);
    for (i, x) in levels.iter().enumerate() {
        if fresh(levels, i, *x, d) {
            made.push(*x)?;
        }
    }
    Ok(made)
}

/// The levels below d, each once, ascending. An error is want of memory.
pub fn known(mut levels: Vec<u64>, d: u64, alloc: Global) -> Result<Levels, OutOfMemory>
    ensures { IfOk result (λ r. r.list.items ≡ W.known_below d levels.items) }
{
    levels.sort()?;
    let list = thin(&levels, d, alloc)?;
    Ok(Levels { list })
}
