// The registers that are wanted ahead of a place of a block.
ghost use Rattle.std.specs.Prelude.{◌≡◌, ◌≤◌, ℕ, List, IfOk, drop, length};
ghost use Rattle.t_spill_rules.specs.Spill.{among};
ghost use Rattle.t_spill.specs.Wants.{Tells};

use idx_core::OutOfMemory;
use std::alloc::Global;
use std::collections::BTreeMap;

/// The registers that the rest of a block wants. A block wants registers in an order, some of them often: for each
/// register one more than its last place in that order is kept, and how many places are passed.
#[derive(Drop)]
pub struct Ahead {
    last: BTreeMap<u64, usize>,
    passed: usize,
}

impl Ahead {
    /// Before all of these, in their order. An error is want of memory.
    pub fn of(alloc: Global, wants: &[u64]) -> Result<Ahead, OutOfMemory>
        ensures { IfOk result (λ a. Tells a wants.now) }
    {
        let mut last = BTreeMap::new(alloc);
        for i in 0..wants.len() {
            last.insert(wants[i], i + 1)?;
        }
        Ok(Ahead { last, passed: 0 })
    }

    /// The first of them are passed.
    pub fn pass(&mut self, count: usize)
        requires { (wants : List ℕ) × Tells self.old wants × (count ≤ length wants) }
        ensures { (wants : List ℕ) → count ≤ length wants → Tells self.old wants → Tells self.new (drop count wants) }
    {
        self.passed += count;
    }

    /// Whether a register is among them.
    pub fn wants(&self, r: u64) -> bool
        ensures { (wants : List ℕ) → Tells self.now wants → result ≡ among r wants }
    {
        match self.last.get(&r) {
            Some(end) => self.passed < *end,
            None => false,
        }
    }
}
