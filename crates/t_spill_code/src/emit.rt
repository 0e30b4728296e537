// Instructions that work on frames and slots.
ghost use Rattle.std.specs.Prelude.{◌≡◌, ◌<◌, ◌^◌, ℕ, OnOk, length};
ghost use Rattle.t_types.specs.Read.{file};
ghost use Rattle.t_terms.specs.Tree.{Mov, TSeq, Then};
ghost use Rattle.t_terms.specs.Read.{instr as instr_tree, value as value_tree};
ghost use Rattle.t_spill_rules.specs.Spill.{reg, numbers, before, load as loads, load_value as loads_value};
ghost use Rattle.t_spill_rules.specs.Spill.{fill as fills, build as builds, gather as gathers, first_reg, second_reg};
ghost use Rattle.t_spill_code.specs.Onto.{onto};
ghost use Rattle.t_spill_code.specs.Homes.{home as the_home, home_in};

use crate::homes::{Home, Homes};
use crate::split::Split;
use crate::types::cell_types;
use idx_core::{OutOfMemory, Span};
use std::alloc::Global;
use t_terms::{Base, Instr, Value};
use t_types::TType;

/// No place in a text.
pub const NOWHERE: Span = Span { start: 0, end: 0 };

/// One more instruction.
pub fn put(code: &mut Vec<(Instr, Span)>, i: Instr) -> Result<(), OutOfMemory>
    ensures { OnOk result ((rest : TSeq) → onto code.new.items rest ≡ onto code.old.items (Then (instr_tree i) rest)) }
{
    code.push((i, NOWHERE))?;
    Ok(())
}

// A register without types.
fn plain(alloc: Global, r: u64) -> Value
    ensures { value_tree result ≡ reg r }
{
    Value::Plain {
        base: Base::Reg(r),
        types: Vec::new(alloc),
    }
}

/// The word of one register of the program's own goes into another.
pub fn put_move(
    alloc: Global,
    code: &mut Vec<(Instr, Span)>,
    rd: u64,
    r: u64,
) -> Result<(), OutOfMemory>
    ensures { OnOk result ((rest : TSeq) → onto code.new.items rest
        ≡ onto code.old.items (Then (Mov rd (reg r)) rest)) }
{
    let v = plain(alloc, r);
    put(code, Instr::Mov { rd, v })
}

// A word with this home is loaded into register t, where it stands in no register.
fn load(code: &mut Vec<(Instr, Span)>, split: Split, t: u64, home: Home) -> Result<(), OutOfMemory>
    ensures { OnOk result ((rest : TSeq) →
        onto code.new.items rest ≡ onto code.old.items (before (loads split.low t (the_home home)) rest)) }
{
    match home {
        Home::Register(_) => Ok(()),
        Home::Frame(field) => put(
            code,
            Instr::Ld {
                rd: t,
                rs: split.frame(),
                field,
            },
        ),
        Home::Slot(field) => put(
            code,
            Instr::Ld {
                rd: t,
                rs: split.slots(),
                field,
            },
        ),
    }
}

/// A first operand is loaded.
pub fn load_first(code: &mut Vec<(Instr, Span)>, homes: &Homes, r: u64) -> Result<(), OutOfMemory>
    ensures { OnOk result ((rest : TSeq) → onto code.new.items rest ≡ onto code.old.items
        (before (loads homes.now.split.low (first_reg homes.now.split.low) (home_in homes.now r)) rest)) }
{
    load(code, homes.split, homes.split.first(), homes.of(r))
}

/// A second operand is loaded.
pub fn load_second(code: &mut Vec<(Instr, Span)>, homes: &Homes, r: u64) -> Result<(), OutOfMemory>
    ensures { OnOk result ((rest : TSeq) → onto code.new.items rest ≡ onto code.old.items
        (before (loads homes.now.split.low (second_reg homes.now.split.low) (home_in homes.now r)) rest)) }
{
    load(code, homes.split, homes.split.second(), homes.of(r))
}

/// A value's register is loaded, as a second operand.
#[cycle(loads)]
pub fn load_value(
    code: &mut Vec<(Instr, Span)>,
    homes: &Homes,
    v: &Value,
) -> Result<(), OutOfMemory>
    ensures { OnOk result ((rest : TSeq) → onto code.new.items rest ≡ onto code.old.items
        (before (loads_value homes.now.split.low (home_in homes.now) (value_tree v.now)) rest)) }
{
    match v {
        Value::Plain { base, .. } => match base {
            Base::Reg(r) => load_second(code, homes, *r),
            Base::Int(_) => Ok(()),
            Base::Label(_) => Ok(()),
            Base::Data(_) => Ok(()),
        },
        Value::Pack { inner, .. } => load_value(code, homes, inner),
    }
}

// A new frame of these registers is filled.
fn fill(
    code: &mut Vec<(Instr, Span)>,
    homes: &Homes,
    to: &[(u64, TType)],
) -> Result<(), OutOfMemory>
    ensures { OnOk result ((rest : TSeq) → onto code.new.items rest ≡ onto code.old.items
        (before (fills homes.now.split.low (home_in homes.now) (numbers (file to.now)) 0) rest)) }
{
    for j in 0..to.len() {
        let r = to[j].0;
        load_second(code, homes, r)?;
        let stored = Instr::St {
            rd: homes.split.made(),
            field: j as u64,
            rs: homes.second(r),
        };
        put(code, stored)?;
    }
    Ok(())
}

/// A new frame of these registers, beside the old one.
pub fn build(
    alloc: Global,
    code: &mut Vec<(Instr, Span)>,
    homes: &Homes,
    to: &[(u64, TType)],
) -> Result<(), OutOfMemory>
    ensures { OnOk result ((rest : TSeq) → onto code.new.items rest ≡ onto code.old.items
        (before (builds homes.now.split.low (home_in homes.now) (file to.now)) rest)) }
{
    let types = cell_types(alloc, homes.split, to)?;
    let made = homes.split.made();
    put(code, Instr::Malloc { rd: made, types })?;
    fill(code, homes, to)
}

/// And in the place of the old one.
#[tactic(auto, using(t_spill_rules::proofs::Parts::before_both))]
pub fn gather(
    alloc: Global,
    code: &mut Vec<(Instr, Span)>,
    homes: &Homes,
    to: &[(u64, TType)],
) -> Result<(), OutOfMemory>
    ensures { OnOk result ((rest : TSeq) → onto code.new.items rest ≡ onto code.old.items
        (before (gathers homes.now.split.low (home_in homes.now) (file to.now)) rest)) }
{
    build(alloc, code, homes, to)?;
    put_move(alloc, code, homes.split.frame(), homes.split.made())
}
