// Trees whose bound names are numbers.
ghost use Rattle.std.specs.Prelude.{◌≡◌, ℕ, ◌+◌, ◌↔◌, IfOk, IsTrue};
ghost use Rattle.idx_core.specs.Over.{Over, Each, shifted, putted, IsWord, BelowAt, AnyDepth, ShiftFitsAt, PutFitsAt};
ghost use Rattle.idx_core.specs.Over.{IsOver, IsPart};
ghost use Rattle.idx_core.specs.Laws.{shift_zero_law, shift_add_law, put_shift_law};

use crate::memory::OutOfMemory;
use std::alloc::Global;

/// A tree with numbered variables, of the kind `Part`.
pub trait Scoped {
    type Part;

    // the plain tree of a value, and of a part
    ghost Tree: { Type 0 };

    ghost PartTree: { Type 0 };

    ghost tree: { Self → Tree };

    ghost part_tree: { Self.Part → PartTree };

    // the variables, and the walks over them
    ghost var: { ℕ → PartTree };

    ghost over_part: { Over PartTree PartTree };

    ghost over: { Over PartTree Tree };

    ghost each_part: { Each PartTree };

    ghost each: { Each Tree };

    /// The tree with `by` added to each variable from `cut` on that is not bound inside it. An error is want of memory.
    fn shift(&self, alloc: Global, by: u64, cut: u64) -> Result<Self, OutOfMemory>
        requires { each (ShiftFitsAt by) IsWord cut (tree self.now) }
        ensures { IfOk result (λ t. tree t ≡ over (shifted var by) cut (tree self.now)) };

    /// The tree with `what` in place of variable `at`, and those above `at` one less. An error is want of memory.
    fn put(&self, alloc: Global, at: u64, what: &Self::Part) -> Result<Self, OutOfMemory>
        requires { each (PutFitsAt each_part at (part_tree what.now)) IsWord at (tree self.now) }
        ensures { IfOk result (λ t. tree t ≡ over (putted var over_part at (part_tree what.now)) at (tree self.now)) };

    /// Whether each variable is bound inside the tree or less than `n`.
    fn below(&self, n: u64) -> bool
        ensures { IsTrue result ↔ each BelowAt AnyDepth n (tree self.now) };

    // what each kind of tree shows
    ghost is_part: { IsPart PartTree var over_part };

    ghost is_over: { IsOver PartTree Tree var over_part over };

    // and what ties the walk of `below` to that of `shift`: a tree is below n exactly where a shift of the variables
    // that are free from n on leaves it as it is
    ghost below_is: { (n : ℕ) (t : Tree) → each BelowAt AnyDepth n t ↔ (over (shifted var 1) n t ≡ t) };

    // and what follows
    ghost shift_zero: { (c : ℕ) (t : Tree) → over (shifted var 0) c t ≡ t } = { shift_zero_law is_over };

    ghost shift_add: { (m n c : ℕ) (t : Tree) →
        over (shifted var n) c (over (shifted var m) c t)
        ≡ over (shifted var (m + n)) c t } = { shift_add_law is_part is_over };

    ghost put_shift: { (c : ℕ) (s : PartTree) (t : Tree) →
        over (putted var over_part c s) c (over (shifted var 1) c t) ≡ t } = { put_shift_law is_part is_over };
}
