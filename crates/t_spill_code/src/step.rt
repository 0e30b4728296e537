// The code of an instruction, up to where its word is computed.
ghost use Rattle.std.specs.Prelude.{◌≡◌, OnOk, IfOk};
ghost use Rattle.t_types.specs.Read.{file};
ghost use Rattle.t_terms.specs.Tree.{Arith, Bnz, Ld, St, TSeq, Ends};
ghost use Rattle.t_terms.specs.Read.{value as value_tree, instr as instr_tree, end_of as end_tree};
ghost use Rattle.t_spill_rules.specs.Spill.{before, load, load_value as loads_value, loads, does, ended};
ghost use Rattle.t_spill_rules.specs.Spill.{first_reg, second_reg};
ghost use Rattle.t_terms.specs.Values.{InstrValues, EndValues};
ghost use Rattle.t_spill_code.specs.Onto.{onto, HasNext};
ghost use Rattle.t_spill_code.specs.Homes.{home_in};

use crate::emit::{build, load_first, load_second, load_value, put, put_move};
use crate::homes::Homes;
use crate::types::spilled_types;
use crate::values::operand;
use idx_core::{Op, OutOfMemory, Span};
use std::alloc::Global;
use t_terms::{End, Instr, Value};
use t_types::TType;

// A sum, a difference or a product: an operation, its register and its first operand.
fn emit_arith(
    alloc: Global,
    code: &mut Vec<(Instr, Span)>,
    homes: &Homes,
    head: (Op, u64, u64),
    v: &Value,
) -> Result<(), OutOfMemory>
    requires { HasNext (value_tree v.now) }
    ensures { OnOk result ((rest : TSeq) → onto code.new.items rest ≡ onto code.old.items
        (before (load homes.now.split.low (first_reg homes.now.split.low) (home_in homes.now head.2))
        (before (loads_value homes.now.split.low (home_in homes.now) (value_tree v.now))
        (before (does homes.now.split.low (home_in homes.now) (Arith head.0 head.1 head.2 (value_tree v.now)))
        rest)))) }
{
    let (op, rd, rs) = head;
    let value = operand(alloc, homes, v)?;
    load_first(code, homes, rs)?;
    load_value(code, homes, v)?;
    let made = Instr::Arith {
        op,
        rd: homes.split.into(rd),
        rs: homes.first(rs),
        v: value,
    };
    put(code, made)
}

// A branch, where the frame of its target is made: it stands in the place of the old one up to the branch.
fn emit_branch(
    alloc: Global,
    code: &mut Vec<(Instr, Span)>,
    homes: &Homes,
    r: u64,
    v: &Value,
) -> Result<(), OutOfMemory>
    requires { HasNext (value_tree v.now) }
    ensures { OnOk result ((rest : TSeq) → onto code.new.items rest ≡ onto code.old.items
        (before (load homes.now.split.low (first_reg homes.now.split.low) (home_in homes.now r))
        (before (loads_value homes.now.split.low (home_in homes.now) (value_tree v.now))
        (before (does homes.now.split.low (home_in homes.now) (Bnz r (value_tree v.now))) rest)))) }
{
    let split = homes.split;
    let value = operand(alloc, homes, v)?;
    load_first(code, homes, r)?;
    load_value(code, homes, v)?;
    put_move(alloc, code, split.saved(), split.frame())?;
    put_move(alloc, code, split.frame(), split.made())?;
    let tested = homes.first(r);
    put(
        code,
        Instr::Bnz {
            r: tested,
            v: value,
        },
    )?;
    put_move(alloc, code, split.frame(), split.saved())
}

// A load from a tuple.
fn emit_load(
    code: &mut Vec<(Instr, Span)>,
    homes: &Homes,
    rd: u64,
    rs: u64,
    field: u64,
) -> Result<(), OutOfMemory>
    ensures { OnOk result ((rest : TSeq) → onto code.new.items rest ≡ onto code.old.items
        (before (load homes.now.split.low (first_reg homes.now.split.low) (home_in homes.now rs))
        (before (does homes.now.split.low (home_in homes.now) (Ld rd rs field)) rest))) }
{
    load_first(code, homes, rs)?;
    let made = Instr::Ld {
        rd: homes.split.into(rd),
        rs: homes.first(rs),
        field,
    };
    put(code, made)
}

// A store into a tuple.
fn emit_store(
    code: &mut Vec<(Instr, Span)>,
    homes: &Homes,
    rd: u64,
    field: u64,
    rs: u64,
) -> Result<(), OutOfMemory>
    ensures { OnOk result ((rest : TSeq) → onto code.new.items rest ≡ onto code.old.items
        (before (load homes.now.split.low (first_reg homes.now.split.low) (home_in homes.now rd))
        (before (load homes.now.split.low (second_reg homes.now.split.low) (home_in homes.now rs))
        (before (does homes.now.split.low (home_in homes.now) (St rd field rs)) rest)))) }
{
    load_first(code, homes, rd)?;
    load_second(code, homes, rs)?;
    let made = Instr::St {
        rd: homes.split.into(rd),
        field,
        rs: homes.second(rs),
    };
    put(code, made)
}

/// An instruction, where these registers of its target are above the split.
#[tactic(auto, using(t_spill_rules::proofs::Parts::loads_are))]
pub fn emit_step(
    alloc: Global,
    code: &mut Vec<(Instr, Span)>,
    homes: &Homes,
    i: &Instr,
    target: &[(u64, TType)],
) -> Result<(), OutOfMemory>
    requires { InstrValues HasNext (instr_tree i.now) }
    ensures { OnOk result ((rest : TSeq) → onto code.new.items rest ≡ onto code.old.items
        (before (loads homes.now.split.low (home_in homes.now) (file target.now) (instr_tree i.now))
        (before (does homes.now.split.low (home_in homes.now) (instr_tree i.now)) rest))) }
{
    let split = homes.split;
    match i {
        Instr::Arith { op, rd, rs, v } => emit_arith(alloc, code, homes, (*op, *rd, *rs), v),
        Instr::Bnz { r, v } => {
            build(alloc, code, homes, target)?;
            emit_branch(alloc, code, homes, *r, v)
        }
        Instr::Ld { rd, rs, field } => emit_load(code, homes, *rd, *rs, *field),
        Instr::St { rd, field, rs } => emit_store(code, homes, *rd, *field, *rs),
        Instr::Malloc { rd, types } => {
            let types = spilled_types(alloc, split, types)?;
            let rd = split.into(*rd);
            put(code, Instr::Malloc { rd, types })
        }
        Instr::Mov { rd, v } => {
            let value = operand(alloc, homes, v)?;
            load_value(code, homes, v)?;
            let rd = split.into(*rd);
            put(code, Instr::Mov { rd, v: value })
        }
        Instr::Unpack { rd, v } => {
            let value = operand(alloc, homes, v)?;
            load_value(code, homes, v)?;
            let rd = split.into(*rd);
            put(code, Instr::Unpack { rd, v: value })
        }
    }
}

/// The end of a block, where these registers of its target are above the split.
pub fn emit_end(
    alloc: Global,
    code: &mut Vec<(Instr, Span)>,
    homes: &Homes,
    end: &End,
    target: &[(u64, TType)],
) -> Result<End, OutOfMemory>
    requires { EndValues HasNext (end_tree end.now) }
    ensures { IfOk result (λ last. onto code.new.items (Ends (end_tree last)) ≡ onto code.old.items
        (ended homes.now.split.low (home_in homes.now) (file target.now) (end_tree end.now))) }
{
    match end {
        End::Jmp(v) => {
            let value = operand(alloc, homes, v)?;
            build(alloc, code, homes, target)?;
            load_value(code, homes, v)?;
            put_move(alloc, code, homes.split.frame(), homes.split.made())?;
            Ok(End::Jmp(value))
        }
        End::Halt => Ok(End::Halt),
    }
}
