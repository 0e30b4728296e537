// The registers that instructions read, one after the other.
ghost use Rattle.std.specs.Prelude.{◌≡◌, ◌≤◌, ◌∷◌, ℕ, List, OnOk, length};
ghost use Rattle.t_types.specs.Read.{file};
ghost use Rattle.t_terms.specs.Read.{value as value_tree, instr as instr_tree, end_of as end_tree};
ghost use Rattle.t_spill_rules.specs.Spill.{numbers, value_reads, reads, end_reads};
ghost use Rattle.t_spill.specs.Wants.{join};

use idx_core::OutOfMemory;
use t_terms::{Base, End, Instr, Value};
use t_types::TType;

fn note(wants: &mut Vec<u64>, r: u64) -> Result<(), OutOfMemory>
    ensures { OnOk result ((rest : List ℕ) → join wants.new.items rest ≡ join wants.old.items (r ∷ rest)) }
{
    wants.push(r)?;
    Ok(())
}

#[cycle(notes)]
fn note_value(wants: &mut Vec<u64>, v: &Value) -> Result<(), OutOfMemory>
    ensures { OnOk result ((rest : List ℕ) →
        join wants.new.items rest ≡ join wants.old.items (join (value_reads (value_tree v.now)) rest)) }
{
    match v {
        Value::Plain { base, .. } => match base {
            Base::Reg(r) => note(wants, *r),
            Base::Int(_) => Ok(()),
            Base::Label(_) => Ok(()),
            Base::Data(_) => Ok(()),
        },
        Value::Pack { inner, .. } => note_value(wants, inner),
    }
}

/// The registers of a file.
pub fn note_file(wants: &mut Vec<u64>, regs: &[(u64, TType)]) -> Result<(), OutOfMemory>
    ensures { OnOk result ((rest : List ℕ) →
        join wants.new.items rest ≡ join wants.old.items (join (numbers (file regs.now)) rest)) }
{
    for reg in regs {
        note(wants, reg.0)?;
    }
    Ok(())
}

/// The registers that an instruction reads.
pub fn note_instr(wants: &mut Vec<u64>, i: &Instr) -> Result<(), OutOfMemory>
    ensures { OnOk result ((rest : List ℕ) →
        join wants.new.items rest ≡ join wants.old.items (join (reads (instr_tree i.now)) rest)) }
{
    match i {
        Instr::Arith { rs, v, .. } => {
            note(wants, *rs)?;
            note_value(wants, v)
        }
        Instr::Bnz { r, v } => {
            note(wants, *r)?;
            note_value(wants, v)
        }
        Instr::Ld { rs, .. } => note(wants, *rs),
        Instr::Malloc { .. } => Ok(()),
        Instr::Mov { v, .. } => note_value(wants, v),
        Instr::St { rd, rs, .. } => {
            note(wants, *rd)?;
            note(wants, *rs)
        }
        Instr::Unpack { v, .. } => note_value(wants, v),
    }
}

/// The registers that an end reads.
pub fn note_end(wants: &mut Vec<u64>, end: &End) -> Result<(), OutOfMemory>
    ensures { OnOk result ((rest : List ℕ) →
        join wants.new.items rest ≡ join wants.old.items (join (end_reads (end_tree end.now)) rest)) }
{
    match end {
        End::Jmp(v) => note_value(wants, v),
        End::Halt => note(wants, 1),
    }
}

#[cycle(counts)]
fn count_value(v: &Value) -> usize
    ensures count { result ≡ length (value_reads (value_tree v.now)) }
    ensures few { result ≤ 1 }
{
    match v {
        Value::Plain { base, .. } => match base {
            Base::Reg(_) => 1,
            Base::Int(_) => 0,
            Base::Label(_) => 0,
            Base::Data(_) => 0,
        },
        Value::Pack { inner, .. } => count_value(inner),
    }
}

/// How many registers an instruction reads.
pub fn count_instr(i: &Instr) -> usize
    ensures { result ≡ length (reads (instr_tree i.now)) }
{
    match i {
        Instr::Arith { v, .. } => 1 + count_value(v),
        Instr::Bnz { v, .. } => 1 + count_value(v),
        Instr::Ld { .. } => 1,
        Instr::Malloc { .. } => 0,
        Instr::Mov { v, .. } => count_value(v),
        Instr::St { .. } => 2,
        Instr::Unpack { v, .. } => count_value(v),
    }
}
