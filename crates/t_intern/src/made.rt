// Types that were made of two types.
ghost use Rattle.std.specs.Prelude.{◌≡◌, ◌<◌, List, length};
ghost use Rattle.t_types.specs.Tree.{Ty};
ghost use Rattle.t_intern.specs.Found.{made_found};
ghost use Rattle.t_intern.specs.Grown.{IsNumber};
ghost use Rattle.t_intern.specs.Memo.{AreMade};
ghost use Rattle.t_intern.specs.Nodes.{at};

use idx_core::Salt;
use std::alloc::Global;
use std::collections::HashMap;

// For the numbers of two types, the number of what was made of them.
#[derive(Drop)]
pub(crate) struct Made {
    made: HashMap<(u64, u64), u64, Salt>,
}

impl Made {
    pub(crate) fn new(alloc: Global, salt: Salt) -> Made
        ensures { (f : Ty → Ty → Ty) (ts : List Ty) → AreMade f (made_found result) ts }
    {
        Made {
            made: HashMap::with_hasher(alloc, salt),
        }
    }

    pub(crate) fn recall(&self, n: u64, by: u64) -> Option<u64>
        ensures { result ≡ made_found self.now (n, by) }
    {
        self.made.get(&(n, by)).copied()
    }

    // One more. Where memory is wanted, it is forgotten.
    pub(crate) fn note(&mut self, n: u64, by: u64, number: u64)
        ensures { (f : Ty → Ty → Ty) (ts : List Ty) → AreMade f (made_found self.old) ts → n < length ts →
            by < length ts → IsNumber ts (f (at ts by) (at ts n)) number → AreMade f (made_found self.new) ts }
    {
        let _ = self.made.insert((n, by), number);
    }
}
