// The code of a block, as it is made.
ghost use Rattle.std.specs.Prelude.{◌≡◌, ◌<◌, ◌∷◌, [], ℕ, suc, List, OnOk, length};
ghost use Rattle.t_types.specs.Tree.{Ty};
ghost use Rattle.t_types.specs.Read.{tree};
ghost use Rattle.t_terms.specs.Tree.{TSeq};
ghost use Rattle.t_spill_rules.specs.Spill.{before, fill_slot};
ghost use Rattle.t_spill_code.specs.Homes.{text};
ghost use Rattle.t_spill_code.specs.Onto.{onto};

use crate::emit::put;
use crate::split::Split;
use idx_core::{OutOfMemory, Span};
use std::alloc::Global;
use std::mem;
use t_terms::Instr;
use t_types::TType;

/// What is made of a block. Where a slot was filled since the last frame was made, `done` ends where the slots have to
/// be made, `slots` has the types of those that are filled, and `tail` is what follows.
#[derive(Drop)]
pub struct Body {
    pub done: Vec<(Instr, Span)>,
    pub tail: Vec<(Instr, Span)>,
    pub slots: Vec<TType>,
}

impl Body {
    /// No code yet.
    pub fn new(alloc: Global) -> Body
        ensures none { length result.slots.items ≡ 0 }
        ensures text { (m : ℕ) (more : List Ty) (rest : TSeq) → text m result more rest ≡ rest }
    {
        Body {
            done: Vec::new(alloc),
            tail: Vec::new(alloc),
            slots: Vec::new(alloc),
        }
    }

    // The first slot: all are made in front of it.
    fn fill_first(&mut self, split: Split, ty: TType) -> Result<(), OutOfMemory>
        requires { length self.old.slots.items ≡ 0 }
        ensures { OnOk result ((length self.new.slots.items ≡ 1) × ((more : List Ty) (rest : TSeq) →
            text split.low self.new more rest
            ≡ text split.low self.old (tree ty ∷ more) (before (fill_slot split.low 0 (tree ty ∷ more)) rest))) }
    {
        self.done.append(&mut self.tail)?;
        self.slots.push(ty)?;
        let stored = Instr::St {
            rd: split.slots(),
            field: 0,
            rs: split.first(),
        };
        put(&mut self.tail, stored)
    }

    // One more slot.
    fn fill_next(&mut self, split: Split, ty: TType) -> Result<(), OutOfMemory>
        requires { 0 < length self.old.slots.items }
        ensures { OnOk result ((length self.new.slots.items ≡ suc (length self.old.slots.items))
            × ((more : List Ty) (rest : TSeq) → text split.low self.new more rest ≡ text split.low self.old
            (tree ty ∷ more) (before (fill_slot split.low (length self.old.slots.items) (tree ty ∷ more)) rest))) }
    {
        let field = self.slots.len() as u64;
        self.slots.push(ty)?;
        let stored = Instr::St {
            rd: split.slots(),
            field,
            rs: split.first(),
        };
        put(&mut self.tail, stored)
    }

    /// A word of this type was computed: it goes into the next slot. An error is want of memory.
    pub fn fill(&mut self, split: Split, ty: TType) -> Result<(), OutOfMemory>
        ensures { OnOk result ((length self.new.slots.items ≡ suc (length self.old.slots.items))
            × ((more : List Ty) (rest : TSeq) → text split.low self.new more rest ≡ text split.low self.old
            (tree ty ∷ more) (before (fill_slot split.low (length self.old.slots.items) (tree ty ∷ more)) rest))) }
    {
        if self.slots.len() == 0 {
            self.fill_first(split, ty)
        } else {
            self.fill_next(split, ty)
        }
    }

    // The slots that are filled are made, if there are any.
    fn make_slots(&mut self, alloc: Global, split: Split) -> Result<(), OutOfMemory>
        ensures { OnOk result ((self.new.tail.items ≡ self.old.tail.items) × (length self.new.slots.items ≡ 0)
            × ((rest : TSeq) → onto self.new.done.items (onto self.new.tail.items rest)
            ≡ text split.low self.old [] rest)) }
    {
        if self.slots.len() == 0 {
            return Ok(());
        }
        let types = mem::replace(&mut self.slots, Vec::new(alloc));
        let made = Instr::Malloc {
            rd: split.slots(),
            types,
        };
        put(&mut self.done, made)
    }

    /// No slot follows those that are filled: they are made, and all is done. An error is want of memory.
    pub fn close(&mut self, alloc: Global, split: Split) -> Result<(), OutOfMemory>
        ensures { OnOk result ((length self.new.slots.items ≡ 0)
            × ((rest : TSeq) → onto self.new.done.items rest ≡ text split.low self.old [] rest)
            × ((more : List Ty) (rest : TSeq) → text split.low self.new more rest ≡ text split.low self.old [] rest)) }
    {
        self.make_slots(alloc, split)?;
        self.done.append(&mut self.tail)?;
        Ok(())
    }
}
