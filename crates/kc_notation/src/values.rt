// The values that wait.
ghost use Rattle.std.specs.Prelude.{◌≡◌, ◌++◌, ℕ, List, IfOk, OnOk};
ghost use Rattle.page_core.specs.Pieces.{Keeps, HasText};
ghost use Rattle.kc_notation.specs.Standing.{IsPage, Taken};
ghost use Rattle.kc_notation.specs.ClosedWalk.{Sheet, last, gathered, past, with_values, push, popped, tuple, wrap};
ghost use Rattle.kc_notation.specs.ClosedWalk.{pair};

use crate::joining::{joined, listed, piece_of, wrapped};
use crate::page::Page;
use idx_core::OutOfMemory;

impl Page {
    // One more value.
    pub(crate) fn push(&mut self, value: u64) -> Result<(), OutOfMemory>
        ensures { OnOk result ((p : Sheet) (s : List ℕ) → IsPage self.old p → HasText self.old.pieces value s →
            IsPage self.new (push p s)) }
    {
        self.body.values.push_front(value)?;
        Ok(())
    }

    // The last value, which goes.
    fn take(&mut self) -> Option<u64>
        ensures pieces { self.new.pieces ≡ self.old.pieces }
        ensures taken { (p : Sheet) → IsPage self.old p → Taken self.new p result }
    {
        self.body.values.pop_front()
    }

    // The last value, which goes. Where none waits, it is no bytes.
    pub(crate) fn pop(&mut self) -> u64
        ensures pieces { self.new.pieces ≡ self.old.pieces }
        ensures popped { (p : Sheet) → IsPage self.old p →
            IsPage self.new (popped p) × HasText self.new.pieces result (last p.body.values) }
    {
        match self.take() {
            Some(value) => value,
            None => self.empty,
        }
    }

    // The so many last values, which go, with commas between them, in front of a piece.
    pub(crate) fn gather(&mut self, count: u64, end: u64) -> Result<u64, OutOfMemory>
        ensures keeps { OnOk result (Keeps self.old.pieces self.new.pieces) }
        ensures gathered { IfOk result (λ whole. (p : Sheet) (s : List ℕ) → IsPage self.old p →
            HasText self.old.pieces end s →
            IsPage self.new (with_values p (past count p.body.values))
            × HasText self.new.pieces whole (gathered count 0 p.body.values s)) }
    {
        let mut whole = end;
        for i in 0..count {
            let value = match self.take() {
                None => return Ok(whole),
                Some(value) => value,
            };
            whole = listed(self.alloc, &mut self.pieces, value, i, whole)?;
        }
        Ok(whole)
    }

    /// The tuple of the so many last values.
    pub fn tuple(&mut self, count: u64) -> Result<(), OutOfMemory>
        ensures { OnOk result ((p : Sheet) → IsPage self.old p → IsPage self.new (tuple p count)) }
    {
        let end = piece_of(self.alloc, &mut self.pieces, b">")?;
        let fields = self.gather(count, end)?;
        let begin = piece_of(self.alloc, &mut self.pieces, b"<")?;
        let whole = self.pieces.joined(begin, fields)?;
        self.push(whole)
    }

    /// The last value, with bytes in front of it and behind it.
    pub fn wrap(&mut self, front: Vec<u8>, behind: Vec<u8>) -> Result<(), OutOfMemory>
        ensures { OnOk result ((p : Sheet) → IsPage self.old p → IsPage self.new (wrap p front.items behind.items)) }
    {
        let value = self.pop();
        let whole = wrapped(&mut self.pieces, front, value, behind)?;
        self.push(whole)
    }

    /// The two last values, with a sign between them, as one.
    pub fn pair(&mut self, sign: &[u8]) -> Result<(), OutOfMemory>
        ensures { OnOk result ((p : Sheet) → IsPage self.old p → IsPage self.new (pair p sign.now)) }
    {
        let right = self.pop();
        let left = self.pop();
        let between = Vec::from_slice(self.alloc, sign)?;
        let whole = joined(&mut self.pieces, left, between, right)?;
        self.push(whole)
    }
}
