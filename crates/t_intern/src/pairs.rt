// Pairs of types that were seen to fit.
ghost use Rattle.std.specs.Prelude.{◌≡◌, ◌<◌, List, length};
ghost use Rattle.t_types.specs.Fits.{Fits};
ghost use Rattle.t_types.specs.Tree.{Ty};
ghost use Rattle.t_intern.specs.Fitting.{AllFit};
ghost use Rattle.t_intern.specs.Found.{seen};
ghost use Rattle.t_intern.specs.Nodes.{at};

use idx_core::Salt;
use std::alloc::Global;
use std::collections::HashSet;

#[derive(Drop)]
pub(crate) struct Pairs {
    seen: HashSet<(u64, u64), Salt>,
}

impl Pairs {
    pub(crate) fn new(alloc: Global, salt: Salt) -> Pairs
        ensures { (ts : List Ty) → AllFit (seen result) ts }
    {
        Pairs {
            seen: HashSet::with_hasher(alloc, salt),
        }
    }

    pub(crate) fn has(&self, a: u64, b: u64) -> bool
        ensures { result ≡ seen self.now (a, b) }
    {
        self.seen.contains(&(a, b))
    }

    // One more pair. Where memory is wanted, it is forgotten.
    pub(crate) fn note(&mut self, a: u64, b: u64)
        ensures { (ts : List Ty) → AllFit (seen self.old) ts → a < length ts → b < length ts →
            Fits (at ts a) (at ts b) → AllFit (seen self.new) ts }
    {
        let _ = self.seen.insert((a, b));
    }
}
