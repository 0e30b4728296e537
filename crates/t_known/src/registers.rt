// What is known of the registers at a place in a block.
ghost use Rattle.std.specs.Prelude.{◌≡◌, ℕ, ◌+◌, ◌<◌, ◌≤◌, List, length, IfOk, OnOk};
ghost use Rattle.t_types.specs.Tree.{Ty, TFile};
ghost use Rattle.t_types.specs.WellFormed.{max_names, max_number, WellFormedFile};
ghost use Rattle.t_terms.specs.Registers.{raised};
ghost use Rattle.t_intern.specs.Grown.{Grown, IsNumber};
ghost use Rattle.t_intern.specs.Nodes.{at, regs_at, RegsBelow};
ghost use Rattle.t_types.specs.Bounds.{Bounded};
ghost use Rattle.t_known.specs.Known.{seen, entry_of, known, IsSound, IsEmpty, IsEntry, IsFound, IsOfBlock};
ghost use Rattle.t_known.specs.Known.{IsNoted, IsFilled, IsSet, HasField};
ghost use Rattle.t_known.specs.Tells.{TellsFit};

use crate::marking::{set_of, whole};
use crate::marks::with;
use idx_core::OutOfMemory;
use std::alloc::Global;
use std::collections::BTreeMap;
use t_intern::Types;

/// The number of a register's type, as it was when `names` type names were in scope, and the set of the fields that
/// were filled since. The type is shifted where it is read, and not at each `unpack`, and its fields are marked where
/// the whole of it is wanted, and not at each `st`.
#[derive(Clone, Copy)]
pub struct Entry {
    pub ty: u64,
    pub marks: Option<u64>,
    pub names: u64,
}

/// A place in a block: how many times a register had been set before it, and how many type names were in scope.
#[derive(Clone, Copy)]
pub(crate) struct Moment {
    pub(crate) set: usize,
    pub(crate) names: u64,
}

/// The types of the registers that have one, and how many type names are in scope. Besides, for jumps: the registers
/// that were set, in order, and for each code type that was jumped to, by number, when its file was last seen to fit.
#[derive(Drop)]
pub struct Registers {
    pub entries: BTreeMap<u64, Entry>,
    pub names: u64,
    pub(crate) changed: Vec<u64>,
    pub(crate) fitted: BTreeMap<u64, Moment>,
}

impl Registers {
    /// None, under type names.
    pub fn none(alloc: Global, names: u64) -> Registers
        requires { names ≤ max_names }
        ensures sound { (ts : List Ty) → IsSound ts result }
        ensures empty { IsEmpty result }
        ensures names { result.names ≡ names }
    {
        let entries = BTreeMap::new(alloc);
        let changed = Vec::new(alloc);
        let fitted = BTreeMap::new(alloc);
        Registers {
            entries,
            names,
            changed,
            fitted,
        }
    }

    /// Those of a block's header, under the type names that the block binds.
    pub fn of_block(alloc: Global, owes: u64, regs: &[(u64, u64)]) -> Result<Registers, OutOfMemory>
        requires { owes ≤ max_names }
        ensures { IfOk result (λ k. (ts : List Ty) (f : TFile) → RegsBelow (length ts) regs.now →
            regs_at ts regs.now ≡ f → WellFormedFile owes f → IsOfBlock ts owes f k) }
    {
        let mut made = Registers::none(alloc, owes);
        let mut left = regs.len();
        while left > 0 {
            left -= 1;
            let (reg, ty) = regs[left];
            made.set(
                reg,
                Entry {
                    ty,
                    marks: None,
                    names: owes,
                },
            )?;
        }
        Ok(made)
    }

    /// The register has this entry from now on.
    pub fn set(&mut self, r: u64, entry: Entry) -> Result<(), OutOfMemory>
        ensures { OnOk result (IsSet self.old self.new r entry) }
    {
        self.changed.push(r)?;
        self.entries.insert(r, entry)?;
        Ok(())
    }

    /// The entry of a register.
    pub fn find(&self, r: u64) -> Option<Entry>
        ensures is { result ≡ entry_of self.now r }
        ensures found { (ts : List Ty) → IsSound ts self.now → IsFound ts self.now r result }
    {
        self.entries.get(&r).copied()
    }

    /// The number of an entry's type under the type names that are in scope now.
    #[inline(always)]
    pub fn shown(&self, types: &mut Types, entry: Entry) -> Result<u64, OutOfMemory>
        requires few { self.now.names ≤ max_names }
        requires entry { IsEntry types.old self.now.names entry }
        ensures grown { Grown types.old types.new }
        ensures number { IfOk result (IsNumber types.new (seen types.old self.now.names entry)) }
    {
        if entry.names == self.names {
            return whole(types, entry.ty, entry.marks);
        }
        let ty = whole(types, entry.ty, entry.marks)?;
        types.shift(ty, self.names - entry.names, 0)
    }

    /// The register has the type of this number from now on.
    pub fn note(&mut self, r: u64, ty: u64) -> Result<(), OutOfMemory>
        ensures { OnOk result ((ts : List Ty) → IsSound ts self.old → ty < length ts →
            Bounded self.old.names (at ts ty) → IsNoted ts self.old self.new r (at ts ty)) }
    {
        let names = self.names;
        self.set(
            r,
            Entry {
                ty,
                marks: None,
                names,
            },
        )
    }

    // Whether the type of an entry fits.
    pub(crate) fn fits_entry(
        &self,
        types: &mut Types,
        entry: Entry,
        wanted: u64,
    ) -> Result<bool, OutOfMemory>
        requires few { self.now.names ≤ max_names }
        requires entry { IsEntry types.old self.now.names entry }
        requires wanted { wanted < length types.old }
        ensures grown { Grown types.old types.new }
        ensures fit { TellsFit (seen types.old self.now.names entry) (at types.old wanted) result }
    {
        let shown = self.shown(types, entry)?;
        Ok(types.fits_once(shown, wanted))
    }

    /// One more type name is in scope.
    pub fn bind(&mut self)
        requires { self.old.names + 1 ≤ max_names }
        ensures known { (ts : List Ty) → IsSound ts self.old → known ts self.new ≡ raised (known ts self.old) }
        ensures sound { (ts : List Ty) → IsSound ts self.old → IsSound ts self.new }
        ensures names { self.new.names ≡ self.old.names + 1 }
    {
        self.names += 1;
    }

    /// The field of the register's tuple is initialised from now on.
    pub fn fill(&mut self, types: &mut Types, r: u64, field: u64) -> Result<(), OutOfMemory>
        requires sound { IsSound types.old self.old }
        requires there { HasField (known types.old self.old) r field }
        requires field { field ≤ max_number }
        ensures grown { Grown types.old types.new }
        ensures filled { OnOk result (IsFilled types.old types.new self.old self.new r field) }
    {
        match self.find(r) {
            Some(entry) => {
                let set = set_of(types, entry.marks)?;
                let alloc = types.alloc();
                let set = with(alloc, types, set, field + 1)?;
                let Entry { ty, names, .. } = entry;
                let marks = Some(set);
                self.set(r, Entry { ty, marks, names })
            }
            None => unreachable!(),
        }
    }
}
