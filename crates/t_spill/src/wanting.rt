// The registers that a block wants, in the order in which they are wanted.
ghost use Rattle.std.specs.Prelude.{◌≡◌, ℕ, List, OnOk, IfOk};
ghost use Rattle.t_types.specs.Read.{file_tree};
ghost use Rattle.t_terms.specs.Read.{instr as instr_tree};
ghost use Rattle.t_terms.specs.ReadProgram.{program as program_tree};
ghost use Rattle.t_spill_rules.specs.Spill.{numbers, target as instr_target, reads, live};
ghost use Rattle.t_spill.specs.Ready.{InstrTypable, Ready};
ghost use Rattle.t_spill.specs.Tails.{tail_of};
ghost use Rattle.t_spill.specs.Wants.{join};

use crate::files::advance;
use crate::known::Known;
use crate::reads::{note_end, note_file, note_instr};
use crate::subject::{subject_of, subject_of_end};
use crate::typing::{target, target_of_end};
use idx_core::{OutOfMemory, Span};
use std::alloc::Global;
use t_terms::{End, Instr, TProgram};
use t_types::RegFile;

// What an instruction reads, and hands to its target.
fn note_wants(
    alloc: Global,
    program: &TProgram,
    wants: &mut Vec<u64>,
    regs: &RegFile,
    i: &Instr,
) -> Result<(), OutOfMemory>
    requires { InstrTypable (program_tree program.now) (file_tree regs.now) (instr_tree i.now) }
    ensures { OnOk result ((rest : List ℕ) → join wants.new.items rest
        ≡ join wants.old.items (join (reads (instr_tree i.now))
        (join (numbers (instr_target (program_tree program.now) (file_tree regs.now) (instr_tree i.now))) rest))) }
{
    let entered = target(alloc, program, &regs.regs, i)?;
    note_instr(wants, i)?;
    note_file(wants, &entered)
}

/// What a body wants, with its end, where this is known of the registers at its start.
pub fn wants_of(
    alloc: Global,
    program: &TProgram,
    start: &RegFile,
    body: &[(Instr, Span)],
    end: &End,
) -> Result<Vec<u64>, OutOfMemory>
    requires { (n : ℕ) × Ready (program_tree program.now) n (file_tree start.now) (tail_of body.now end.now 0) }
    ensures { IfOk result (λ w.
        w.items ≡ live (program_tree program.now) (file_tree start.now) (tail_of body.now end.now 0)) }
{
    let mut wants = Vec::new(alloc);
    let mut known = Known::of(alloc, &start.regs)?;
    for entry in body {
        let read = known.part(alloc, subject_of(&entry.0))?;
        note_wants(alloc, program, &mut wants, &read, &entry.0)?;
        advance(alloc, program, &mut known, &read, &entry.0)?;
    }
    let read = known.part(alloc, subject_of_end(end))?;
    let entered = target_of_end(alloc, program, &read.regs, end)?;
    note_end(&mut wants, end)?;
    note_file(&mut wants, &entered)?;
    Ok(wants)
}
