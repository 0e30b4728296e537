// A word that was computed goes into a slot, or into a new frame.
ghost use Rattle.std.specs.Prelude.{◌≡◌, ◌<◌, ◌≤◌, ℕ, List, OnOk};
ghost use Rattle.t_types.specs.Tree.{TFile};
ghost use Rattle.t_types.specs.Read.{tree};
ghost use Rattle.t_types.specs.WellFormed.{max_names, WellFormedFile};
ghost use Rattle.t_spill.specs.Finishing.{Filled, Gathered, Frames};
ghost use Rattle.t_spill.specs.Known.{Knows};
ghost use Rattle.t_spill.specs.Wants.{Tells};

use crate::ahead::Ahead;
use crate::known::Known;
use crate::picking::picked;
use idx_core::OutOfMemory;
use std::alloc::Global;
use t_spill_code::{Body, Homes, gather};
use t_types::TType;

/// The code of a block so far, and where the words of registers stand after it.
#[derive(Drop)]
pub struct Code {
    pub homes: Homes,
    pub body: Body,
}

/// The word of a register above the split, of this type, goes into the next slot. An error is want of memory.
pub fn fill(code: &mut Code, rd: u64, ty: TType) -> Result<(), OutOfMemory>
    requires { code.old.homes.split.low < rd }
    ensures { OnOk result (Filled code.old code.new rd (tree ty)) }
{
    let split = code.homes.split;
    let slot = code.body.slots.len() as u64;
    code.homes.fill(rd, slot)?;
    code.body.fill(split, ty)
}

/// After a word was computed for a register, a new frame is made of all that is wanted. An error is want of memory.
pub fn make_frame(
    alloc: Global,
    code: &mut Code,
    known: &Known,
    ahead: &Ahead,
    rd: u64,
) -> Result<(), OutOfMemory>
    requires { (n : ℕ) × (y : TFile) × Knows n known.now y × (n ≤ max_names) × WellFormedFile n y }
    ensures { OnOk result ((n : ℕ) (y : TFile) (ws : List ℕ) (x : TFile) → Knows n known.now y → Tells ahead.now ws →
        Frames code.old.homes rd ws y x → Gathered code.old code.new rd ws x) }
{
    let split = code.homes.split;
    code.homes.hold(rd)?;
    let to = picked(alloc, &code.homes, known, ahead)?;
    gather(alloc, &mut code.body.tail, &code.homes, &to)?;
    code.body.close(alloc, split)?;
    code.homes = Homes::gathered(alloc, split, &to)?;
    Ok(())
}
