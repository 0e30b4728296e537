// What is known of the registers after an instruction.
ghost use Rattle.std.specs.Prelude.{◌≡◌, ◌≤◌, ℕ, OnOk, IfOk};
ghost use Rattle.t_types.specs.Tree.{TFile};
ghost use Rattle.t_types.specs.Read.{tree, file, file_tree};
ghost use Rattle.t_types.specs.WellFormed.{max_names};
ghost use Rattle.t_terms.specs.Read.{instr as instr_tree};
ghost use Rattle.t_terms.specs.ReadProgram.{program as program_tree};
ghost use Rattle.t_spill_rules.specs.Spill.{next as next_file};
ghost use Rattle.t_spill.specs.Ready.{InstrTypable};
ghost use Rattle.t_spill.specs.Known.{Knows, alone, subject, given as given_type};
ghost use Rattle.t_terms.specs.Tree.{names_after};

use crate::known::Known;
use crate::shapes::{hidden, loaded, new_tuple, stored};
use crate::typing::type_of_value;
use idx_core::OutOfMemory;
use std::alloc::Global;
use t_terms::{Instr, TProgram};
use t_types::{RegFile, TType};

/// The type that an instruction gives to its register; `Int` where it gives none.
pub fn given(
    alloc: Global,
    program: &TProgram,
    regs: &[(u64, TType)],
    i: &Instr,
) -> Result<TType, OutOfMemory>
    requires { InstrTypable (program_tree program.now) (file regs.now) (instr_tree i.now) }
    ensures { IfOk result (λ t.
        tree t ≡ given_type (program_tree program.now) (file regs.now) (instr_tree i.now)) }
{
    match i {
        Instr::Arith { .. } => Ok(TType::Int),
        Instr::Bnz { .. } => Ok(TType::Int),
        Instr::Ld { rs, field, .. } => loaded(alloc, regs, *rs, *field),
        Instr::Malloc { types, .. } => new_tuple(alloc, types),
        Instr::Mov { v, .. } => type_of_value(alloc, program, regs, v),
        Instr::St { rd, field, .. } => stored(alloc, regs, *rd, *field),
        Instr::Unpack { v, .. } => {
            let package = type_of_value(alloc, program, regs, v)?;
            hidden(alloc, &package)
        }
    }
}

/// What is known of the registers after an instruction, where `read` is what is known of the register of which it needs
/// the type.
pub fn advance(
    alloc: Global,
    program: &TProgram,
    known: &mut Known,
    read: &RegFile,
    i: &Instr,
) -> Result<(), OutOfMemory>
    requires typable { InstrTypable (program_tree program.now) (file_tree read.now) (instr_tree i.now) }
    requires room { names_after (instr_tree i.now) known.old.names ≤ max_names }
    ensures { OnOk result ((n : ℕ) (x : TFile) → Knows n known.old x →
        file_tree read.now ≡ alone (subject (instr_tree i.now)) x →
        Knows (names_after (instr_tree i.now) n) known.new
        (next_file (program_tree program.now) x (instr_tree i.now))) }
{
    let t = given(alloc, program, &read.regs, i)?;
    match i {
        Instr::Arith { rd, .. } => known.set(*rd, t),
        Instr::Bnz { .. } => Ok(()),
        Instr::Ld { rd, .. } => known.set(*rd, t),
        Instr::Malloc { rd, .. } => known.set(*rd, t),
        Instr::Mov { rd, .. } => known.set(*rd, t),
        Instr::St { rd, .. } => known.set(*rd, t),
        Instr::Unpack { rd, .. } => {
            known.bind();
            known.set(*rd, t)
        }
    }
}
