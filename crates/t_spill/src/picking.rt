// The registers of a new frame: those above the split that are known and wanted.
ghost use Rattle.std.specs.Prelude.{◌≡◌, ◌≤◌, ℕ, List, cond, IfOk, OnOk};
ghost use Rattle.t_types.specs.Tree.{TFile};
ghost use Rattle.t_types.specs.Read.{file};
ghost use Rattle.t_types.specs.Fits.{lookup};
ghost use Rattle.t_types.specs.WellFormed.{max_names, WellFormedFile};
ghost use Rattle.t_spill_code.specs.Onto.{front};
ghost use Rattle.t_spill_code.specs.Homes.{Lists};
ghost use Rattle.t_spill.specs.Known.{Knows};
ghost use Rattle.t_spill.specs.Picking.{wanted, picked_one, picked as picked_of};
ghost use Rattle.t_spill.specs.Wants.{Tells};

use crate::ahead::Ahead;
use crate::known::Known;
use idx_core::OutOfMemory;
use std::alloc::Global;
use t_spill_code::{Homes, Split};
use t_types::TType;

// Whether a register is above the split and wanted.
fn is_wanted(split: Split, ahead: &Ahead, r: u64) -> bool
    ensures { (ws : List ℕ) → Tells ahead.now ws → result ≡ wanted split.low ws r }
{
    if split.low < r { ahead.wants(r) } else { false }
}

// A register with its type, if it is known.
fn put_known(
    alloc: Global,
    made: &mut Vec<(u64, TType)>,
    known: &Known,
    r: u64,
) -> Result<(), OutOfMemory>
    requires { (n : ℕ) × (x : TFile) × Knows n known.now x × (n ≤ max_names) × WellFormedFile n x }
    ensures { OnOk result ((n : ℕ) (x : TFile) (rest : TFile) → Knows n known.now x →
        front made.new.items rest ≡ front made.old.items (picked_one r (lookup x r) rest)) }
{
    let mut shown = known.part(alloc, Some(r))?;
    made.append(&mut shown.regs)?;
    Ok(())
}

fn pick(
    alloc: Global,
    made: &mut Vec<(u64, TType)>,
    known: &Known,
    r: u64,
    is_wanted: bool,
) -> Result<(), OutOfMemory>
    requires { (n : ℕ) × (x : TFile) × Knows n known.now x × (n ≤ max_names) × WellFormedFile n x }
    ensures { OnOk result ((n : ℕ) (x : TFile) (rest : TFile) → Knows n known.now x → front made.new.items rest
        ≡ front made.old.items (cond is_wanted (picked_one r (lookup x r) rest) rest)) }
{
    if is_wanted {
        put_known(alloc, made, known, r)
    } else {
        Ok(())
    }
}

/// The registers above the split that have a word, are known and are wanted, with their types, in order. An error is
/// want of memory.
pub fn picked(
    alloc: Global,
    homes: &Homes,
    known: &Known,
    ahead: &Ahead,
) -> Result<Vec<(u64, TType)>, OutOfMemory>
    requires { (n : ℕ) × (x : TFile) × Knows n known.now x × (n ≤ max_names) × WellFormedFile n x }
    ensures { IfOk result (λ r. (qs : List ℕ) × Lists homes.now qs × ((n : ℕ) (x : TFile) (ws : List ℕ) →
        Knows n known.now x → Tells ahead.now ws → file r.items ≡ picked_of homes.now.split.low ws x qs)) }
{
    let registers = homes.registers(alloc)?;
    let mut made = Vec::new(alloc);
    for r in &registers {
        let wanted = is_wanted(homes.split, ahead, *r);
        pick(alloc, &mut made, known, *r, wanted)?;
    }
    Ok(made)
}
