// One instruction of a block.
ghost use Rattle.std.specs.Prelude.{◌≡◌, ◌<◌, ◌^◌, ◌++◌, ℕ, List, OnOk, IfOk, length};
ghost use Rattle.t_types.specs.Tree.{TFile};
ghost use Rattle.t_types.specs.Read.{tree, file, file_tree};
ghost use Rattle.t_terms.specs.Tree.{TSeq, Then};
ghost use Rattle.t_terms.specs.Read.{instr as instr_tree};
ghost use Rattle.t_terms.specs.ReadProgram.{program as program_tree};
ghost use Rattle.t_spill_rules.specs.Spill.{numbers, reads, sp, defines, stores};
ghost use Rattle.t_terms.specs.Values.{InstrValues};
ghost use Rattle.t_spill_code.specs.Onto.{HasNext};
ghost use Rattle.t_spill.specs.Known.{alone, subject as instr_subject, given as given_type};
ghost use Rattle.t_spill.specs.Moving.{Before, Between, Computes, Settles, Moves};
ghost use Rattle.t_spill.specs.Ready.{InstrTypable, ReadyInstr};
ghost use Rattle.t_spill.specs.Wants.{Tells};

use crate::ahead::Ahead;
use crate::files::{advance, given};
use crate::finish::{Code, fill, make_frame};
use crate::known::Known;
use crate::reads::count_instr;
use crate::subject::subject_of;
use crate::typing::target;
use crate::way::{Way, decide, defined};
use idx_core::OutOfMemory;
use std::alloc::Global;
use t_spill_code::{Split, emit_step, high_part, spilled_type};
use t_terms::{Instr, TProgram};
use t_types::{RegFile, TType};

/// Where a block stands: what is known of its registers, what the rest of it wants, and its code so far.
#[derive(Drop)]
pub struct Walk {
    pub known: Known,
    pub ahead: Ahead,
    pub code: Code,
}

// An instruction is passed that has these registers of its target.
fn pass_instr(ahead: &mut Ahead, i: &Instr, entered: &[(u64, TType)])
    requires { (ws : List ℕ) × Tells ahead.old (reads (instr_tree i.now) ++ numbers (file entered.now) ++ ws) }
    ensures { (ws : List ℕ) → Tells ahead.old (reads (instr_tree i.now) ++ numbers (file entered.now) ++ ws) →
        Tells ahead.new ws }
{
    ahead.pass(count_instr(i));
    ahead.pass(entered.len());
}

// The code of an instruction, up to where its word is computed, and what is known after it.
fn compute(
    alloc: Global,
    program: &TProgram,
    walk: &mut Walk,
    read: &RegFile,
    i: &Instr,
) -> Result<(), OutOfMemory>
    requires fits { InstrValues HasNext (instr_tree i.now) }
    requires stands { (n : ℕ) × (y : TFile) × (x : TFile) × (c : TSeq)
        × Before (program_tree program.now) n y x walk.old (Then (instr_tree i.now) c)
        × (file_tree read.now ≡ alone (instr_subject (instr_tree i.now)) y) }
    ensures { OnOk result ((n : ℕ) (y : TFile) (x : TFile) (c : TSeq) →
        Before (program_tree program.now) n y x walk.old (Then (instr_tree i.now) c) →
        file_tree read.now ≡ alone (instr_subject (instr_tree i.now)) y →
        Computes (program_tree program.now) n y x walk.old walk.new (instr_tree i.now) c) }
{
    let split = walk.code.homes.split;
    let entered = target(alloc, program, &read.regs, i)?;
    pass_instr(&mut walk.ahead, i, &entered);
    let high = high_part(alloc, split, entered)?;
    emit_step(alloc, &mut walk.code.body.tail, &walk.code.homes, i, &high)?;
    advance(alloc, program, &mut walk.known, read, i)
}

// The spilled type of what an instruction gives.
fn slot_type(
    alloc: Global,
    program: &TProgram,
    split: Split,
    read: &RegFile,
    i: &Instr,
) -> Result<TType, OutOfMemory>
    requires { InstrTypable (program_tree program.now) (file_tree read.now) (instr_tree i.now) }
    ensures { IfOk result (λ t. tree t ≡ sp split.low (given_type (program_tree program.now) (file_tree read.now)
        (instr_tree i.now))) }
{
    let ty = given(alloc, program, &read.regs, i)?;
    spilled_type(alloc, split, &ty)
}

// The word that an instruction computed stays, is held, goes into a slot, or goes into a new frame.
fn settle(
    alloc: Global,
    program: &TProgram,
    walk: &mut Walk,
    read: &RegFile,
    i: &Instr,
    stored: bool,
) -> Result<(), OutOfMemory>
    requires { (n : ℕ) × (y : TFile) × (x : TFile) × (c : TSeq)
        × Between (program_tree program.now) n y x walk.old (instr_tree i.now) c
        × ReadyInstr (program_tree program.now) n y (instr_tree i.now)
        × (file_tree read.now ≡ alone (instr_subject (instr_tree i.now)) y)
        × (stored ≡ stores (defines (instr_tree i.now)) c) }
    ensures { OnOk result ((n : ℕ) (y : TFile) (x : TFile) (c : TSeq) →
        Between (program_tree program.now) n y x walk.old (instr_tree i.now) c →
        file_tree read.now ≡ alone (instr_subject (instr_tree i.now)) y →
        stored ≡ stores (defines (instr_tree i.now)) c →
        Settles (program_tree program.now) n y x walk.old walk.new (instr_tree i.now) c) }
{
    let split = walk.code.homes.split;
    let used = walk.code.body.slots.len();
    match decide(split, used, i, stored) {
        Way::Stays => Ok(()),
        Way::Holds => walk.code.homes.hold(defined(i)),
        Way::Fills => {
            let ty = slot_type(alloc, program, split, read, i)?;
            fill(&mut walk.code, defined(i), ty)
        }
        Way::Gathers => make_frame(alloc, &mut walk.code, &walk.known, &walk.ahead, defined(i)),
    }
}

/// The code of an instruction; `stored` says whether the next one stores into the tuple of its register. An error is
/// want of memory.
pub fn spill_instr(
    alloc: Global,
    program: &TProgram,
    walk: &mut Walk,
    i: &Instr,
    stored: bool,
) -> Result<(), OutOfMemory>
    requires few { length (program_tree program.now).blocks < 2 ^ 64 }
    requires stands { (n : ℕ) × (y : TFile) × (x : TFile) × (c : TSeq)
        × Before (program_tree program.now) n y x walk.old (Then (instr_tree i.now) c)
        × (stored ≡ stores (defines (instr_tree i.now)) c) }
    ensures { OnOk result ((n : ℕ) (y : TFile) (x : TFile) (c : TSeq) →
        Before (program_tree program.now) n y x walk.old (Then (instr_tree i.now) c) →
        stored ≡ stores (defines (instr_tree i.now)) c →
        Moves (program_tree program.now) n y x walk.old walk.new (instr_tree i.now) c) }
{
    let read = walk.known.part(alloc, subject_of(i))?;
    compute(alloc, program, walk, &read, i)?;
    settle(alloc, program, walk, &read, i, stored)
}
