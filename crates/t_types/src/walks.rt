// Shift and put of types, and how many of their variables are free.
ghost use Rattle.std.specs.Prelude.{◌≡◌, ◌≤◌, IfOk};
ghost use Rattle.idx_core.specs.Over.{IsWord, ShiftFitsAt, PutFitsAt, BelowAt, AnyDepth};
ghost use Rattle.idx_core.specs.Bound.{Tells};
ghost use Rattle.t_types.specs.Read.{tree, file, fields};
ghost use Rattle.t_types.specs.Tree.{Ty, VarTy, over, over_file, over_fields, each, each_file, each_fields, shift};
ghost use Rattle.t_types.specs.Tree.{shift_file, shift_fields, put_from, put_file_from, put_fields_from, ShiftFits};
ghost use Rattle.t_types.specs.Tree.{PutFits, Below, BelowFile, BelowFields};
ghost use Rattle.t_types.specs.TreeLaws.{types_part, types_over, type_is_below};

use crate::types::{RegFile, TType};
use idx_core::{OutOfMemory, Scoped, deeper, index_below};
use std::alloc::Global;

#[cycle(shift)]
fn shift_type(alloc: Global, t: &TType, by: u64, cut: u64) -> Result<TType, OutOfMemory>
    requires fits { ShiftFits by cut (tree t.now) }
    ensures { IfOk result (λ r. tree r ≡ shift by cut (tree t.now)) }
{
    match t {
        TType::Int => Ok(TType::Int),
        TType::Var(i) => {
            if *i < cut {
                Ok(TType::Var(*i))
            } else {
                Ok(TType::Var(*i + by))
            }
        }
        TType::Code { owes, regs } => {
            let regs = shift_regs(alloc, &regs.regs, by, cut + *owes)?;
            Ok(TType::Code {
                owes: *owes,
                regs: RegFile { regs },
            })
        }
        TType::Exists(t) => {
            let t = shift_type(alloc, t, by, cut + 1)?;
            Ok(TType::Exists(Box::new(alloc, t)?))
        }
        TType::Tuple(fs) => {
            let fs = shift_flagged(alloc, fs, by, cut)?;
            Ok(TType::Tuple(fs))
        }
    }
}

#[cycle(shift)]
pub(crate) fn shift_regs(
    alloc: Global,
    regs: &[(u64, TType)],
    by: u64,
    cut: u64,
) -> Result<Vec<(u64, TType)>, OutOfMemory>
    requires fits { each_file (ShiftFitsAt by) IsWord cut (file regs.now) }
    ensures { IfOk result (λ r. file r.items ≡ shift_file by cut (file regs.now)) }
{
    let mut made = Vec::with_capacity(alloc, regs.len())?;
    for reg in regs {
        let t = shift_type(alloc, &reg.1, by, cut)?;
        made.push((reg.0, t))?;
    }
    Ok(made)
}

#[cycle(shift)]
fn shift_flagged(
    alloc: Global,
    fs: &[(TType, bool)],
    by: u64,
    cut: u64,
) -> Result<Vec<(TType, bool)>, OutOfMemory>
    requires fits { each_fields (ShiftFitsAt by) IsWord cut (fields fs.now) }
    ensures { IfOk result (λ r. fields r.items ≡ shift_fields by cut (fields fs.now)) }
{
    let mut made = Vec::with_capacity(alloc, fs.len())?;
    for field in fs {
        let t = shift_type(alloc, &field.0, by, cut)?;
        made.push((t, field.1))?;
    }
    Ok(made)
}

/// Puts `what` for the variable that was `at` at the root, where the walk stands at `depth`. An error is want of
/// memory.
#[cycle(put)]
pub fn put_type(
    alloc: Global,
    t: &TType,
    at: u64,
    depth: u64,
    what: &TType,
) -> Result<TType, OutOfMemory>
    requires deep { at ≤ depth }
    requires fits { PutFits at (tree what.now) depth (tree t.now) }
    ensures { IfOk result (λ r. tree r ≡ put_from at (tree what.now) depth (tree t.now)) }
{
    match t {
        TType::Int => Ok(TType::Int),
        TType::Var(i) => {
            if *i < depth {
                Ok(TType::Var(*i))
            } else if *i == depth {
                shift_type(alloc, what, depth - at, 0)
            } else {
                Ok(TType::Var(*i - 1))
            }
        }
        TType::Code { owes, regs } => {
            let regs = put_regs(alloc, &regs.regs, at, depth + *owes, what)?;
            Ok(TType::Code {
                owes: *owes,
                regs: RegFile { regs },
            })
        }
        TType::Exists(t) => {
            let t = put_type(alloc, t, at, depth + 1, what)?;
            Ok(TType::Exists(Box::new(alloc, t)?))
        }
        TType::Tuple(fs) => {
            let fs = put_flagged(alloc, fs, at, depth, what)?;
            Ok(TType::Tuple(fs))
        }
    }
}

/// Puts `what` into each type of a list of registers for the variable that was `at` at the root, where the walk stands
/// at `depth`. An error is want of memory.
#[cycle(put)]
pub fn put_regs(
    alloc: Global,
    regs: &[(u64, TType)],
    at: u64,
    depth: u64,
    what: &TType,
) -> Result<Vec<(u64, TType)>, OutOfMemory>
    requires deep { at ≤ depth }
    requires fits { each_file (PutFitsAt each at (tree what.now)) IsWord depth (file regs.now) }
    ensures { IfOk result (λ r. file r.items ≡ put_file_from at (tree what.now) depth (file regs.now)) }
{
    let mut made = Vec::with_capacity(alloc, regs.len())?;
    for reg in regs {
        let t = put_type(alloc, &reg.1, at, depth, what)?;
        made.push((reg.0, t))?;
    }
    Ok(made)
}

#[cycle(put)]
fn put_flagged(
    alloc: Global,
    fs: &[(TType, bool)],
    at: u64,
    depth: u64,
    what: &TType,
) -> Result<Vec<(TType, bool)>, OutOfMemory>
    requires deep { at ≤ depth }
    requires fits { each_fields (PutFitsAt each at (tree what.now)) IsWord depth (fields fs.now) }
    ensures { IfOk result (λ r. fields r.items ≡ put_fields_from at (tree what.now) depth (fields fs.now)) }
{
    let mut made = Vec::with_capacity(alloc, fs.len())?;
    for field in fs {
        let t = put_type(alloc, &field.0, at, depth, what)?;
        made.push((t, field.1))?;
    }
    Ok(made)
}

/// Whether each free index of a type is less than the bound, where `None` is past every index.
#[cycle(below)]
pub fn type_below(t: &TType, bound: Option<u64>) -> bool
    ensures { Tells bound (λ n. Below n (tree t.now)) result }
{
    match t {
        TType::Int => true,
        TType::Var(i) => index_below(*i, bound),
        TType::Code { owes, regs } => regs_below(&regs.regs, deeper(bound, *owes)),
        TType::Exists(t) => type_below(t, deeper(bound, 1)),
        TType::Tuple(fs) => fields_below(fs, bound),
    }
}

#[cycle(below)]
pub(crate) fn regs_below(regs: &[(u64, TType)], bound: Option<u64>) -> bool
    ensures { Tells bound (λ n. BelowFile n (file regs.now)) result }
{
    for reg in regs {
        if !type_below(&reg.1, bound) {
            return false;
        }
    }
    true
}

#[cycle(below)]
fn fields_below(fs: &[(TType, bool)], bound: Option<u64>) -> bool
    ensures { Tells bound (λ n. BelowFields n (fields fs.now)) result }
{
    for field in fs {
        if !type_below(&field.0, bound) {
            return false;
        }
    }
    true
}

impl Scoped for TType {
    type Part = TType;

    ghost Tree = { Ty };

    ghost PartTree = { Ty };

    ghost tree = { tree };

    ghost part_tree = { tree };

    ghost var = { VarTy };

    ghost over_part = { over };

    ghost over = { over };

    ghost each_part = { each };

    ghost each = { each };

    fn shift(&self, alloc: Global, by: u64, cut: u64) -> Result<TType, OutOfMemory> {
        shift_type(alloc, self, by, cut)
    }

    fn put(&self, alloc: Global, at: u64, what: &TType) -> Result<TType, OutOfMemory> {
        put_type(alloc, self, at, at, what)
    }

    fn below(&self, n: u64) -> bool {
        type_below(self, Some(n))
    }

    ghost is_part = { types_part };

    ghost is_over = { types_over };

    ghost below_is = { type_is_below };
}
