// Numbers that a walk has found.
ghost use Rattle.std.specs.Prelude.{◌≡◌, ℕ, List, ◌<◌, length, cond, None, Some, OnOk, OnErr};
ghost use Rattle.idx_core.specs.Over.{At};
ghost use Rattle.t_types.specs.Tree.{Ty, over};
ghost use Rattle.t_intern.specs.Nodes.{at};
ghost use Rattle.t_intern.specs.Grown.{IsNumber};
ghost use Rattle.t_intern.specs.Memo.{Remembers};
ghost use Rattle.t_intern.specs.Found.{found, same_key};

use idx_core::{OutOfMemory, Salt};
use std::alloc::Global;
use std::collections::HashMap;

// For a type's number and a depth, the number of the walked type.
#[derive(Drop)]
pub(crate) struct Memo {
    found: HashMap<(u64, u64), u64, Salt>,
}

impl Memo {
    pub(crate) fn new(alloc: Global, salt: Salt) -> Memo
        ensures { (k : ℕ × ℕ) → found result k ≡ None }
    {
        Memo {
            found: HashMap::with_hasher(alloc, salt),
        }
    }

    pub(crate) fn recall(&self, n: u64, depth: u64) -> Option<u64>
        ensures { result ≡ found self.now (n, depth) }
    {
        self.found.get(&(n, depth)).copied()
    }

    pub(crate) fn note(&mut self, n: u64, depth: u64, made: u64) -> Result<(), OutOfMemory>
        ensures { (f : At Ty) (ts : List Ty) → Remembers f (found self.old) ts → n < length ts →
            IsNumber ts (over f depth (at ts n)) made → Remembers f (found self.new) ts }
    {
        match self.found.insert((n, depth), made) {
            Ok(_) => Ok(()),
            Err(_) => Err(OutOfMemory),
        }
    }
}
