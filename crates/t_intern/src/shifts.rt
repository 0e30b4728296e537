// Shifts of types that were made.
ghost use Rattle.std.specs.Prelude.{◌≡◌, ◌<◌, List, length};
ghost use Rattle.t_types.specs.Tree.{Ty, shift};
ghost use Rattle.t_intern.specs.Found.{shift_found};
ghost use Rattle.t_intern.specs.Grown.{IsNumber};
ghost use Rattle.t_intern.specs.Memo.{AreShifts};
ghost use Rattle.t_intern.specs.Nodes.{at};

use idx_core::Salt;
use std::alloc::Global;
use std::collections::HashMap;

// For a shift, and a type's number and a cut, the number of the shifted type.
#[derive(Drop)]
pub(crate) struct Shifts {
    made: HashMap<(u64, (u64, u64)), u64, Salt>,
}

impl Shifts {
    pub(crate) fn new(alloc: Global, salt: Salt) -> Shifts
        ensures { (ts : List Ty) → AreShifts (shift_found result) ts }
    {
        Shifts {
            made: HashMap::with_hasher(alloc, salt),
        }
    }

    pub(crate) fn recall(&self, n: u64, by: u64, cut: u64) -> Option<u64>
        ensures { result ≡ shift_found self.now (by, (n, cut)) }
    {
        self.made.get(&(by, (n, cut))).copied()
    }

    // One more. Where memory is wanted, it is forgotten.
    pub(crate) fn note(&mut self, n: u64, by: u64, cut: u64, number: u64)
        ensures { (ts : List Ty) → AreShifts (shift_found self.old) ts → n < length ts →
            IsNumber ts (shift by cut (at ts n)) number → AreShifts (shift_found self.new) ts }
    {
        let _ = self.made.insert((by, (n, cut)), number);
    }
}
