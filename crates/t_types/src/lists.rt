// Shift and put of register files and of lists of types.
ghost use Rattle.std.specs.Prelude.{◌≡◌, ◌≤◌, IfOk};
ghost use Rattle.idx_core.specs.Over.{IsWord, ShiftFitsAt, PutFitsAt, shifted, putted};
ghost use Rattle.idx_core.specs.Bound.{Tells};
ghost use Rattle.t_types.specs.Read.{tree, types, file_tree};
ghost use Rattle.t_types.specs.Tree.{Ty, TFile, VarTy, over, over_file, over_types, each, each_file, each_types};
ghost use Rattle.t_types.specs.Tree.{BelowFile, BelowTypes};
ghost use Rattle.t_types.specs.TreeLaws.{types_part, file_over, file_is_below};

use crate::types::{RegFile, TType};
use crate::walks::{put_regs, put_type, regs_below, shift_regs, type_below};
use idx_core::{OutOfMemory, Scoped};
use std::alloc::Global;

impl Scoped for RegFile {
    type Part = TType;

    ghost Tree = { TFile };

    ghost PartTree = { Ty };

    ghost tree = { file_tree };

    ghost part_tree = { tree };

    ghost var = { VarTy };

    ghost over_part = { over };

    ghost over = { over_file };

    ghost each_part = { each };

    ghost each = { each_file };

    fn shift(&self, alloc: Global, by: u64, cut: u64) -> Result<RegFile, OutOfMemory> {
        let regs = shift_regs(alloc, &self.regs, by, cut)?;
        Ok(RegFile { regs })
    }

    fn put(&self, alloc: Global, at: u64, what: &TType) -> Result<RegFile, OutOfMemory> {
        let regs = put_regs(alloc, &self.regs, at, at, what)?;
        Ok(RegFile { regs })
    }

    fn below(&self, n: u64) -> bool {
        regs_below(&self.regs, Some(n))
    }

    ghost is_part = { types_part };

    ghost is_over = { file_over };

    ghost below_is = { file_is_below };
}

/// Each type of a list shifted. An error is want of memory.
pub fn shift_types(
    alloc: Global,
    ts: &[TType],
    by: u64,
    cut: u64,
) -> Result<Vec<TType>, OutOfMemory>
    requires { each_types (ShiftFitsAt by) IsWord cut (types ts.now) }
    ensures { IfOk result (λ r. types r.items ≡ over_types (shifted VarTy by) cut (types ts.now)) }
{
    let mut made = Vec::with_capacity(alloc, ts.len())?;
    for t in ts {
        let t = t.shift(alloc, by, cut)?;
        made.push(t)?;
    }
    Ok(made)
}

/// `what` put into each type of a list for the variable that was `at` at the root, where the walk stands at `depth`. An
/// error is want of memory.
pub fn put_types(
    alloc: Global,
    ts: &[TType],
    at: u64,
    depth: u64,
    what: &TType,
) -> Result<Vec<TType>, OutOfMemory>
    requires deep { at ≤ depth }
    requires fits { each_types (PutFitsAt each at (tree what.now)) IsWord depth (types ts.now) }
    ensures { IfOk result (λ r.
        types r.items ≡ over_types (putted VarTy over at (tree what.now)) depth (types ts.now)) }
{
    let mut made = Vec::with_capacity(alloc, ts.len())?;
    for t in ts {
        let t = put_type(alloc, t, at, depth, what)?;
        made.push(t)?;
    }
    Ok(made)
}

/// Whether each free index of a list of types is less than the bound, where `None` is past every index.
pub fn types_below(ts: &[TType], bound: Option<u64>) -> bool
    ensures { Tells bound (λ n. BelowTypes n (types ts.now)) result }
{
    for t in ts {
        if !type_below(t, bound) {
            return false;
        }
    }
    true
}

/// Whether each free index of a register file is less than the bound, where `None` is past every index.
pub fn file_below(regs: &RegFile, bound: Option<u64>) -> bool
    ensures { Tells bound (λ n. BelowFile n (file_tree regs.now)) result }
{
    regs_below(&regs.regs, bound)
}
