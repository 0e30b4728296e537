// Where the words of registers stand.
ghost use Rattle.std.specs.Prelude.{◌≡◌, ◌<◌, ℕ, IfOk, OnOk};
ghost use Rattle.t_types.specs.Read.{file};
ghost use Rattle.t_spill_rules.specs.Spill.{Held, InSlot, gathered as gathered_at, numbers, among, into as into_reg};
ghost use Rattle.t_spill_rules.specs.Spill.{at_home, first_reg, second_at};
ghost use Rattle.t_spill_code.specs.Homes.{home as the_home, home_in, has_in, Sets, Lists};

use crate::split::Split;
use idx_core::OutOfMemory;
use std::alloc::Global;
use std::collections::BTreeMap;
use t_types::TType;

/// Where the word of a register stands: in a register, in a field of the frame, or in a slot.
#[derive(Clone, Copy)]
pub enum Home {
    Register(u64),
    Frame(u64),
    Slot(u64),
}

// The register that a word is used from, which stands here: t, where it stands in no register.
pub(crate) fn stands(home: Home, t: u64) -> u64
    ensures { result ≡ at_home t (the_home home) }
{
    match home {
        Home::Register(q) => q,
        Home::Frame(_) => t,
        Home::Slot(_) => t,
    }
}

/// The homes of registers. One up to the split is its own. Of those above it the map has the ones that were in the
/// frame when it was made, and the ones that were given a word since then; `count` of them were in the frame.
#[derive(Drop)]
pub struct Homes {
    pub split: Split,
    pub(crate) places: BTreeMap<u64, Home>,
    pub(crate) count: u64,
}

impl Homes {
    /// Where a frame of these registers was just made. An error is want of memory.
    pub fn gathered(
        alloc: Global,
        split: Split,
        high: &[(u64, TType)],
    ) -> Result<Homes, OutOfMemory>
        ensures { IfOk result (λ h. (h.split.low ≡ split.low)
            × ((r : ℕ) → home_in h r ≡ (gathered_at split.low (numbers (file high.now))).homes r)
            × ((r : ℕ) → has_in h r ≡ among r (numbers (file high.now)))) }
    {
        let mut places = BTreeMap::new(alloc);
        let mut left = high.len();
        while left > 0 {
            left -= 1;
            places.insert(high[left].0, Home::Frame(left as u64))?;
        }
        Ok(Homes {
            split,
            places,
            count: high.len() as u64,
        })
    }

    /// The home of a register.
    pub fn of(&self, r: u64) -> Home
        ensures { the_home result ≡ home_in self.now r }
    {
        if self.split.low < r {
            match self.places.get(&r) {
                Some(place) => *place,
                None => Home::Frame(self.count),
            }
        } else {
            Home::Register(r)
        }
    }

    /// The register that a first operand is used from.
    pub fn first(&self, r: u64) -> u64
        ensures { result ≡ at_home (first_reg self.now.split.low) (home_in self.now r) }
    {
        stands(self.of(r), self.split.first())
    }

    /// The register that a second operand is used from.
    pub fn second(&self, r: u64) -> u64
        ensures { result ≡ second_at self.now.split.low (home_in self.now) r }
    {
        stands(self.of(r), self.split.second())
    }

    // A register above the split has this home from now on.
    fn set(&mut self, r: u64, home: Home) -> Result<(), OutOfMemory>
        requires { self.old.split.low < r }
        ensures { OnOk result (Sets self.old self.new r (the_home home)) }
    {
        self.places.insert(r, home)?;
        Ok(())
    }

    /// The word of a register above the split went into this slot. An error is want of memory.
    pub fn fill(&mut self, r: u64, slot: u64) -> Result<(), OutOfMemory>
        requires { self.old.split.low < r }
        ensures { OnOk result (Sets self.old self.new r (InSlot slot)) }
    {
        self.set(r, Home::Slot(slot))
    }

    /// The word of a register was just computed. An error is want of memory.
    pub fn hold(&mut self, r: u64) -> Result<(), OutOfMemory>
        ensures { OnOk result (Sets self.old self.new r (Held (into_reg self.old.split.low r))) }
    {
        if self.split.low < r {
            let computed = self.split.first();
            self.set(r, Home::Register(computed))
        } else {
            Ok(())
        }
    }

    /// The registers above the split that have a word, in order. An error is want of memory.
    pub fn registers(&self, alloc: Global) -> Result<Vec<u64>, OutOfMemory>
        ensures { IfOk result (λ rs. Lists self.now rs.items) }
    {
        let mut made = Vec::new(alloc);
        for r in self.places.keys() {
            made.push(*r)?;
        }
        Ok(made)
    }
}
