// What is known of the registers along a block.
ghost use Rattle.std.specs.Prelude.{◌≡◌, ◌+◌, ◌<◌, ◌≤◌, ℕ, OnOk, IfOk};
ghost use Rattle.t_types.specs.Tree.{TFile, shift_file};
ghost use Rattle.t_types.specs.Read.{tree, file, file_tree};
ghost use Rattle.t_types.specs.WellFormed.{max_names};
ghost use Rattle.t_spill_rules.specs.Spill.{ins};
ghost use Rattle.t_spill.specs.Known.{Knows, FitsNow, MayShow, seen, one, alone};

use idx_core::{OutOfMemory, Scoped};
use std::alloc::Global;
use std::collections::BTreeMap;
use t_types::{RegFile, TType, copy};

// The type of a register, and how many type names the block had bound where the register was given it.
#[derive(Drop)]
struct Entry {
    ty: TType,
    names: u64,
}

/// What is known of the registers at a place of a block. A type stays as it was given: where the block binds a type
/// name, that is counted, and a type is shifted where it is read. So a step costs no more than the types that it reads
/// and gives.
#[derive(Drop)]
pub struct Known {
    entries: BTreeMap<u64, Entry>,
    names: u64,
}

impl Known {
    /// At the start of a block, by its register file. An error is want of memory.
    pub fn of(alloc: Global, regs: &[(u64, TType)]) -> Result<Known, OutOfMemory>
        ensures { IfOk result (λ k. (n : ℕ) → Knows n k (file regs.now)) }
    {
        let mut known = Known {
            entries: BTreeMap::new(alloc),
            names: 0,
        };
        let mut left = regs.len();
        while left > 0 {
            left -= 1;
            let reg = &regs[left];
            let ty = copy(alloc, &reg.1)?;
            known.set(reg.0, ty)?;
        }
        Ok(known)
    }

    /// The register has this type from now on. An error is want of memory.
    pub fn set(&mut self, r: u64, ty: TType) -> Result<(), OutOfMemory>
        ensures { OnOk result ((n : ℕ) (x : TFile) → Knows n self.old x → Knows n self.new (ins r (tree ty) x)) }
    {
        let names = self.names;
        self.entries.insert(r, Entry { ty, names })?;
        Ok(())
    }

    /// One more type name is in scope.
    pub fn bind(&mut self)
        requires { self.old.names < max_names }
        ensures { (n : ℕ) (x : TFile) → Knows n self.old x → Knows (n + 1) self.new (shift_file 1 0 x) }
    {
        self.names += 1;
    }

    // The type of an entry where as many type names are in scope as now, as a file of the register alone.
    fn shown(&self, alloc: Global, r: u64, entry: &Entry) -> Result<RegFile, OutOfMemory>
        requires { FitsNow self.now entry.now }
        ensures { IfOk result (λ y. file_tree y ≡ one r (Some (seen self.now.names entry.now))) }
    {
        let by = self.names.saturating_sub(entry.names);
        let ty = entry.ty.shift(alloc, by, 0)?;
        let mut regs = Vec::new(alloc);
        regs.push((r, ty))?;
        Ok(RegFile { regs })
    }

    /// What is known of a register, as a file of that register alone; of no register, an empty file. An error is want
    /// of memory.
    pub fn part(&self, alloc: Global, register: Option<u64>) -> Result<RegFile, OutOfMemory>
        requires { (n : ℕ) × (x : TFile) × Knows n self.now x × MayShow n register x }
        ensures { IfOk result (λ y. (n : ℕ) (x : TFile) → Knows n self.now x → file_tree y ≡ alone register x) }
    {
        match register {
            Some(r) => match self.entries.get(&r) {
                Some(entry) => self.shown(alloc, r, entry),
                None => Ok(RegFile {
                    regs: Vec::new(alloc),
                }),
            },
            None => Ok(RegFile {
                regs: Vec::new(alloc),
            }),
        }
    }
}
