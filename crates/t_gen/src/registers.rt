// The registers that hold something.
ghost use Rattle.std.specs.Prelude.{◌≡◌, ℕ, ◌==◌, ◌||◌, ◌&&◌, ◌+◌, ◌≤◌, ◌<◌, ◌^◌, not, nat_lt, Bool, true, false};
ghost use Rattle.std.specs.Prelude.{Some, List};
ghost use Rattle.std.specs.Prelude.{IfOk, OnOk, IfSome, IfNone};
ghost use Rattle.std.specs.Ordering.{nat_cmp};
ghost use Rattle.std.specs.BTreeMap.{get};
ghost use Rattle.t_gen_rules.specs.Gen.{busy, picked};
ghost use Rattle.t_gen.specs.Registers.{Holds, Gaps, Besides, Greatest, Least, Room};

use idx_core::OutOfMemory;
use std::alloc::Global;
use std::collections::{BTreeMap, BTreeSet};

/// Registers from 1 on: those that hold something, and the gaps between them, each as its first register and the one
/// after its last. So the least one from any register on that holds nothing is found in logarithmic time. Register
/// 2^64 - 1 is in no gap.
#[derive(Drop)]
pub struct Registers {
    pub busy: BTreeSet<u64>,
    pub gaps: BTreeMap<u64, u64>,
}

impl Registers {
    /// Where none holds anything. An error is want of memory.
    pub fn new(alloc: Global) -> Result<Registers, OutOfMemory>
        ensures { IfOk result (λ s. Holds s (λ r. false)) }
    {
        let gaps = whole(alloc)?;
        Ok(Registers {
            busy: BTreeSet::new(alloc),
            gaps,
        })
    }

    /// The greatest register that holds something, or 0.
    pub fn top(&self) -> u64
        ensures { (h : ℕ → Bool) → Holds self.now h → Greatest result h }
    {
        match self.busy.last() {
            Some(r) => *r,
            None => 0,
        }
    }

    // The least register from `from` on that holds nothing.
    fn least(&self, from: u64) -> u64
        requires one { 1 ≤ from }
        requires room { Room self.now from }
        ensures { (h : ℕ → Bool) → Holds self.now h → Least from result h }
    {
        match gap_of(&self.gaps, from) {
            Some(_) => from,
            None => first_from(&self.gaps, from),
        }
    }

    // Whether register r is one and holds nothing.
    fn is_free(&self, r: u64) -> bool
        ensures { (h : ℕ → Bool) → Holds self.now h → result ≡ (nat_lt 0 r && not (h r)) }
    {
        if r == 0 {
            return false;
        }
        !self.busy.contains(&r)
    }

    /// Register `wanted`, if it is one and holds nothing, or else the least one from `from` on that holds nothing.
    pub fn pick(&self, wanted: u64, from: u64) -> u64
        requires one { 1 ≤ from }
        requires room { Room self.now from }
        ensures { (m : List ℕ) (u : ℕ → Bool) → Holds self.now (λ r. busy r m u) → result ≡ picked wanted from m u }
    {
        if self.is_free(wanted) {
            return wanted;
        }
        self.least(from)
    }

    /// Register r holds nothing any more. An error is want of memory.
    pub fn release(&mut self, r: u64) -> Result<(), OutOfMemory>
        ensures { OnOk result ((h : ℕ → Bool) → Holds self.old h → Holds self.new (λ q. h q && not (r == q))) }
    {
        if r == 0 {
            return Ok(());
        }
        if self.busy.remove(&r) {
            let Some(end) = r.checked_add(1) else {
                // The last register is in no gap.
                return Ok(());
            };
            put_gap(&mut self.gaps, r, end)?;
        }
        Ok(())
    }

    /// Register r holds something from now on. An error is want of memory.
    pub fn take(&mut self, r: u64) -> Result<(), OutOfMemory>
        ensures { OnOk result ((h : ℕ → Bool) → Holds self.old h → Holds self.new (λ q. (r == q) || h q)) }
    {
        self.busy.insert(r)?;
        match gap_of(&self.gaps, r) {
            Some((first, end)) => {
                split(&mut self.gaps, first, end, r)?;
                Ok(())
            }
            None => Ok(()),
        }
    }
}

// One gap with all registers.
fn whole(alloc: Global) -> Result<BTreeMap<u64, u64>, OutOfMemory>
    ensures { IfOk result (λ g. Gaps g (λ r. false)) }
{
    let mut gaps = BTreeMap::new(alloc);
    gaps.insert(1, u64::MAX)?;
    Ok(gaps)
}

// The gap that register r is in.
fn gap_of(gaps: &BTreeMap<u64, u64>, r: u64) -> Option<(u64, u64)>
    ensures some { IfSome result (λ p. (get nat_cmp gaps.now p.0 ≡ Some p.1) × (p.0 ≤ r) × (r < p.1)) }
    ensures none { IfNone result ((h : ℕ → Bool) → Gaps gaps.now h → 1 ≤ r → r + 1 < 2 ^ 64 → h r ≡ true) }
{
    let (first, end) = last_up_to(gaps, r)?;
    if r < end {
        return Some((first, end));
    }
    None
}

// The last gap that does not begin after register r.
fn last_up_to(gaps: &BTreeMap<u64, u64>, r: u64) -> Option<(u64, u64)>
    ensures some { IfSome result (λ p. (get nat_cmp gaps.now p.0 ≡ Some p.1) × (p.0 ≤ r)
        × ((a b : ℕ) → get nat_cmp gaps.now a ≡ Some b → a ≤ r → a ≤ p.0)) }
    ensures none { IfNone result ((a b : ℕ) → get nat_cmp gaps.now a ≡ Some b → a ≤ r → ⊥) }
{
    let (first, end) = gaps.range(..=r).next_back()?;
    Some((*first, *end))
}

// The first register of the first gap that begins at register r or after it.
fn first_from(gaps: &BTreeMap<u64, u64>, r: u64) -> u64
    requires some { (a : ℕ) × (b : ℕ) × (get nat_cmp gaps.now a ≡ Some b) × (r ≤ a) }
    ensures { (r ≤ result) × ((b : ℕ) × (get nat_cmp gaps.now result ≡ Some b))
        × ((a b : ℕ) → get nat_cmp gaps.now a ≡ Some b → r ≤ a → result ≤ a) }
{
    match gaps.range(r..).next() {
        Some((first, _)) => *first,
        None => unreachable!(),
    }
}

// The registers from `first` on and before `end` become a gap, if there are any.
fn put_gap(gaps: &mut BTreeMap<u64, u64>, first: u64, end: u64) -> Result<(), OutOfMemory>
    ensures { OnOk result ((h i : ℕ → Bool) → Gaps gaps.old h → 1 ≤ first
        → ((r : ℕ) → first ≤ r → r < end → (h r ≡ true) × (i r ≡ false)) → Besides first end h i → Gaps gaps.new i) }
{
    if first < end {
        gaps.insert(first, end)?;
    }
    Ok(())
}

// The gap without register r.
fn split(gaps: &mut BTreeMap<u64, u64>, first: u64, end: u64, r: u64) -> Result<(), OutOfMemory>
    requires { r < end }
    ensures { OnOk result ((h : ℕ → Bool) → get nat_cmp gaps.old first ≡ Some end → first ≤ r → Gaps gaps.old h
        → Gaps gaps.new (λ q. (r == q) || h q)) }
{
    gaps.remove(&first);
    put_gap(gaps, first, r)?;
    put_gap(gaps, r + 1, end)?;
    Ok(())
}
