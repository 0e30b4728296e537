// How many variables are in scope, where they may be more than any index.
ghost use Rattle.std.specs.Prelude.{ℕ, ◌+◌, ◌<◌};
ghost use Rattle.idx_core.specs.Bound.{IsBound, Tells};

/// The bound on indices under so many more binders, where `None` is past every index.
pub fn deeper(bound: Option<u64>, by: u64) -> Option<u64>
    ensures { (n : ℕ) → IsBound bound n → IsBound result (n + by) }
{
    match bound {
        Some(n) => n.checked_add(by),
        None => None,
    }
}

/// Whether the index is less than the bound.
pub fn index_below(i: u64, bound: Option<u64>) -> bool
    ensures { Tells bound (λ n. i < n) result }
{
    match bound {
        Some(n) => i < n,
        None => true,
    }
}
