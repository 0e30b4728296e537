// Names in scope.
ghost use Rattle.std.specs.Prelude.{◌≡◌, ◌<◌, [], ◌∷◌, drop, OnOk, OnErr, unwrap_or};
ghost use Rattle.std.specs.BTreeMap.{IsUnchanged};
ghost use Rattle.idx_core.specs.Names.{FindsPlace};
ghost use Rattle.idx_core.specs.Levels.{SetsLevel};
ghost use Rattle.idx_core.specs.Bounds.{kept_level};

use crate::memory::OutOfMemory;
use std::alloc::Global;
use std::collections::BTreeMap;
use std::marker::Model;

// The level of the innermost name of each spelling: how many names there were with it, or 0 where none is left. Whoever
// writes a text picks its spellings, so the map is ordered: no choice of them makes it slow.
type Levels = BTreeMap<Vec<u8>, u64>;

// A name as it is bound: where it starts, and the level that its spelling had before it.
#[derive(Clone, Copy)]
struct Bound {
    start: usize,
    hidden: u64,
}

/// A stack of names. Contracts see it as the list of the names, innermost first, each as its bytes. A call takes time
/// by the length of the name and the logarithm of how many spellings there have been, however far away the name is.
#[derive(Drop)]
pub struct Names {
    alloc: Global,
    // the names one after the other, and what is known of each, innermost last
    bytes: Vec<u8>,
    bound: Vec<Bound>,
    levels: Levels,
}

impl Model for Names {
    ghost use Rattle.std.specs.Prelude.{List, reverse};
    ghost use Rattle.idx_core.specs.Names.{Name};
    ghost use Rattle.idx_core.specs.Levels.{HasLevels};
    ghost use Rattle.idx_core.specs.Bounds.{names_at, AreBound, kept_level};

    ghost Value = { List Name };

    ghost view = { λ s. names_at s.bytes.items (reverse s.bound.items) };

    ghost invariant = { λ s.
        AreBound s.bytes.items (reverse s.bound.items)
        × HasLevels (kept_level s.levels) (names_at s.bytes.items (reverse s.bound.items)) };
}

// The level of a spelling.
fn level(levels: &Levels, name: &[u8]) -> u64
    ensures { result ≡ unwrap_or (kept_level levels.now name.now) 0 }
{
    levels.get(name).copied().unwrap_or(0)
}

// Gives a spelling this level. Where memory is wanted, the levels are as before.
fn set_level(alloc: Global, levels: &mut Levels, name: &[u8], level: u64) -> Result<(), OutOfMemory>
    ensures set { OnOk result (SetsLevel (kept_level levels.old) (kept_level levels.new) name.now level) }
    ensures kept { OnErr result (IsUnchanged levels.old levels.new) }
{
    if let Some(kept) = levels.get_mut(name) {
        *kept = level;
        return Ok(());
    }
    let spelling = Vec::from_slice(alloc, name)?;
    levels.insert(spelling, level)?;
    Ok(())
}

// Gives a spelling that has a level this one.
fn change_level(levels: &mut Levels, name: &[u8], level: u64)
    ensures { 0 < unwrap_or (kept_level levels.old name.now) 0 →
        SetsLevel (kept_level levels.old) (kept_level levels.new) name.now level }
{
    if let Some(kept) = levels.get_mut(name) {
        *kept = level;
    }
}

impl Names {
    /// No names.
    pub fn new(alloc: Global) -> Names
        ensures { result ≡ [] }
    {
        Names {
            alloc,
            bytes: Vec::new(alloc),
            bound: Vec::new(alloc),
            levels: BTreeMap::new(alloc),
        }
    }

    /// Makes a name the innermost one. Where memory is wanted, the names are as before.
    pub fn push(&mut self, name: &[u8]) -> Result<(), OutOfMemory>
        ensures pushed { OnOk result (self.new ≡ name.now ∷ self.old) }
        ensures kept { OnErr result (self.new ≡ self.old) }
    {
        let start = self.bytes.len();
        let hidden = level(&self.levels, name);
        self.bytes.extend_from_slice(name)?;
        if self.bound.push(Bound { start, hidden }).is_err() {
            self.bytes.truncate(start);
            return Err(OutOfMemory);
        }
        let count = self.bound.len() as u64;
        match set_level(self.alloc, &mut self.levels, name, count) {
            Ok(()) => Ok(()),
            Err(OutOfMemory) => {
                self.bound.pop();
                self.bytes.truncate(start);
                Err(OutOfMemory)
            }
        }
    }

    /// Takes the innermost name away, which undoes a push. Where there is none, it does nothing.
    pub fn pop(&mut self)
        ensures { self.new ≡ drop 1 self.old }
    {
        if let Some(bound) = self.bound.pop() {
            change_level(&mut self.levels, &self.bytes[bound.start..], bound.hidden);
            self.bytes.truncate(bound.start);
        }
    }

    /// The first place of a name, counted from the innermost, or `None` exactly where it is not there.
    pub fn find(&self, name: &[u8]) -> Option<u64>
        ensures { FindsPlace name.now self.now result }
    {
        let level = level(&self.levels, name);
        if level == 0 {
            return None;
        }
        Some(self.bound.len() as u64 - level)
    }
}
