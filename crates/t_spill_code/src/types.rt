// Types with frames.
ghost use Rattle.std.specs.Prelude.{◌≡◌, IfOk, OnOk, map, nat_lt};
ghost use Rattle.t_types.specs.Tree.{TFile, TFields};
ghost use Rattle.t_types.specs.Read.{tree, file, file_tree, fields, types as type_trees};
ghost use Rattle.t_spill_rules.specs.Spill.{sp, sp_regs, sp_fields, sp_file, cells, high_part as high_of, with_if};
ghost use Rattle.t_spill_rules.specs.Spill.{without_if};
ghost use Rattle.t_spill_code.specs.Onto.{front, fields_onto, field_if};

use crate::split::Split;
use idx_core::OutOfMemory;
use std::alloc::Global;
use t_types::{RegFile, TType};

/// A type, where code takes its registers above the split in a frame.
#[cycle(spilled)]
pub fn spilled_type(alloc: Global, split: Split, t: &TType) -> Result<TType, OutOfMemory>
    ensures { IfOk result (λ r. tree r ≡ sp split.low (tree t.now)) }
{
    match t {
        TType::Int => Ok(TType::Int),
        TType::Var(i) => Ok(TType::Var(*i)),
        TType::Code { owes, regs } => {
            let regs = spilled_file(alloc, split, &regs.regs)?;
            Ok(TType::Code { owes: *owes, regs })
        }
        TType::Exists(t) => {
            let t = spilled_type(alloc, split, t)?;
            Ok(TType::Exists(Box::new(alloc, t)?))
        }
        TType::Tuple(fs) => {
            let fs = spilled_fields(alloc, split, fs)?;
            Ok(TType::Tuple(fs))
        }
    }
}

// A register of a file, with its type: up to the split it stays, and above it goes into the frame.
fn divide(
    lows: &mut Vec<(u64, TType)>,
    frame: &mut Vec<(TType, bool)>,
    split: Split,
    r: u64,
    t: TType,
) -> Result<(), OutOfMemory>
    ensures lows { OnOk result ((last : TFile) →
        front lows.new.items last ≡ front lows.old.items (without_if (nat_lt split.low r) r (tree t) last)) }
    ensures frame { OnOk result ((rest : TFields) →
        fields_onto frame.new.items rest ≡ fields_onto frame.old.items (field_if (nat_lt split.low r) (tree t) rest)) }
{
    if split.low < r {
        frame.push((t, true))?;
        Ok(())
    } else {
        lows.push((r, t))?;
        Ok(())
    }
}

/// The register file of code: the registers up to the split, and the others in a frame.
#[cycle(spilled)]
pub fn spilled_file(
    alloc: Global,
    split: Split,
    regs: &[(u64, TType)],
) -> Result<RegFile, OutOfMemory>
    ensures { IfOk result (λ r. file_tree r ≡ sp_file split.low (file regs.now)) }
{
    let mut lows = Vec::new(alloc);
    let mut frame = Vec::new(alloc);
    for reg in regs {
        let t = spilled_type(alloc, split, &reg.1)?;
        divide(&mut lows, &mut frame, split, reg.0, t)?;
    }
    lows.push((split.frame(), TType::Tuple(frame)))?;
    Ok(RegFile { regs: lows })
}

#[cycle(spilled)]
fn spilled_fields(
    alloc: Global,
    split: Split,
    fs: &[(TType, bool)],
) -> Result<Vec<(TType, bool)>, OutOfMemory>
    ensures { IfOk result (λ r. fields r.items ≡ sp_fields split.low (fields fs.now)) }
{
    let mut made = Vec::new(alloc);
    for field in fs {
        let t = spilled_type(alloc, split, &field.0)?;
        made.push((t, field.1))?;
    }
    Ok(made)
}

/// Each type of a list.
pub fn spilled_types(alloc: Global, split: Split, ts: &[TType]) -> Result<Vec<TType>, OutOfMemory>
    ensures { IfOk result (λ r. type_trees r.items ≡ map (sp split.low) (type_trees ts.now)) }
{
    let mut made = Vec::new(alloc);
    for t in ts {
        let t = spilled_type(alloc, split, t)?;
        made.push(t)?;
    }
    Ok(made)
}

/// The types of a frame of these registers.
pub fn cell_types(
    alloc: Global,
    split: Split,
    regs: &[(u64, TType)],
) -> Result<Vec<TType>, OutOfMemory>
    ensures { IfOk result (λ r. type_trees r.items ≡ cells (sp_regs split.low (file regs.now))) }
{
    let mut made = Vec::new(alloc);
    for reg in regs {
        let t = spilled_type(alloc, split, &reg.1)?;
        made.push(t)?;
    }
    Ok(made)
}

fn take_high(
    made: &mut Vec<(u64, TType)>,
    entry: (u64, TType),
    split: Split,
) -> Result<(), OutOfMemory>
    ensures { OnOk result ((rest : TFile) → front made.new.items rest
        ≡ front made.old.items (with_if (nat_lt split.low entry.0) entry.0 (tree entry.1) rest)) }
{
    if split.low < entry.0 {
        made.push(entry)?;
        Ok(())
    } else {
        Ok(())
    }
}

/// The registers of a file above the split.
pub fn high_part(
    alloc: Global,
    split: Split,
    regs: Vec<(u64, TType)>,
) -> Result<Vec<(u64, TType)>, OutOfMemory>
    ensures { IfOk result (λ r. file r.items ≡ high_of split.low (file regs.items)) }
{
    let mut made = Vec::new(alloc);
    for entry in regs {
        take_high(&mut made, entry, split)?;
    }
    Ok(made)
}
