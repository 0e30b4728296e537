// Types under more type names, and types put for those that a code owes. Where a sum would pass 64 bits, which it does
// in no program, they answer want of memory.
ghost use Rattle.std.specs.Prelude.{◌≡◌, IfOk};
ghost use Rattle.idx_core.specs.Over.{shifted};
ghost use Rattle.calc_core.specs.Read.{tree, all_trees};
ghost use Rattle.calc_core.specs.Types.{VarTy};
ghost use Rattle.calc_core.specs.Walks.{over, over_all, shift, shift_all};
ghost use Rattle.let_types.specs.Parts.{applied_type, placed};

use calc_core::CoreType;
use idx_core::{OutOfMemory, sum};
use std::alloc::Global;

fn moved(by: u64, cut: u64, i: u64) -> Result<CoreType, OutOfMemory>
    ensures { IfOk result (λ r. tree r ≡ shifted VarTy by cut i) }
{
    if i < cut {
        return Ok(CoreType::Var(i));
    }
    let j = sum(i, by)?;
    Ok(CoreType::Var(j))
}

/// The type under `by` more names, where the variables below `cut` are bound. An error is want of memory.
#[cycle(shift)]
pub fn shift_type(alloc: Global, t: &CoreType, by: u64, cut: u64) -> Result<CoreType, OutOfMemory>
    ensures { IfOk result (λ r. tree r ≡ shift by cut (tree t.now)) }
{
    match t {
        CoreType::Int => Ok(CoreType::Int),
        CoreType::Var(i) => {
            let made = moved(by, cut, *i)?;
            Ok(made)
        }
        CoreType::Tuple(ts) => {
            let ts = shift_types(alloc, ts, by, cut)?;
            Ok(CoreType::Tuple(ts))
        }
        CoreType::Code { owes, args } => {
            let inner = sum(cut, *owes)?;
            let args = shift_types(alloc, args, by, inner)?;
            Ok(CoreType::Code { owes: *owes, args })
        }
        CoreType::Exists(t) => {
            let inner = sum(cut, 1)?;
            let t = shift_type(alloc, t, by, inner)?;
            Ok(CoreType::Exists(Box::new(alloc, t)?))
        }
        CoreType::Ref(t) => {
            let t = shift_type(alloc, t, by, cut)?;
            Ok(CoreType::Ref(Box::new(alloc, t)?))
        }
    }
}

#[cycle(shift)]
fn shift_types(
    alloc: Global,
    ts: &[CoreType],
    by: u64,
    cut: u64,
) -> Result<Vec<CoreType>, OutOfMemory>
    ensures { IfOk result (λ r. all_trees r.items ≡ shift_all by cut (all_trees ts.now)) }
{
    let mut made = Vec::with_capacity(alloc, ts.len())?;
    for t in ts {
        made.push(shift_type(alloc, t, by, cut)?)?;
    }
    Ok(made)
}

// What stands under `depth` names for the variable `i`, where these types are put for the variables behind those names.
fn put_at(alloc: Global, types: &[CoreType], depth: u64, i: u64) -> Result<CoreType, OutOfMemory>
    ensures { IfOk result (λ r. tree r ≡ placed (all_trees types.now) depth i) }
{
    if i < depth {
        return Ok(CoreType::Var(i));
    }
    let j = i - depth;
    let count = types.len() as u64;
    if j < count {
        let made = shift_type(alloc, &types[(count - 1 - j) as usize], depth, 0)?;
        return Ok(made);
    }
    let k = sum(j - count, depth)?;
    Ok(CoreType::Var(k))
}

// Types put for the variables behind `depth` names, the last one for the first of them.
#[cycle(put)]
fn put_types_in(
    alloc: Global,
    t: &CoreType,
    types: &[CoreType],
    depth: u64,
) -> Result<CoreType, OutOfMemory>
    ensures { IfOk result (λ r. tree r ≡ over (placed (all_trees types.now)) depth (tree t.now)) }
{
    match t {
        CoreType::Int => Ok(CoreType::Int),
        CoreType::Var(i) => {
            let made = put_at(alloc, types, depth, *i)?;
            Ok(made)
        }
        CoreType::Tuple(ts) => {
            let ts = put_types_in_all(alloc, ts, types, depth)?;
            Ok(CoreType::Tuple(ts))
        }
        CoreType::Code { owes, args } => {
            let inner = sum(depth, *owes)?;
            let args = put_types_in_all(alloc, args, types, inner)?;
            Ok(CoreType::Code { owes: *owes, args })
        }
        CoreType::Exists(t) => {
            let inner = sum(depth, 1)?;
            let t = put_types_in(alloc, t, types, inner)?;
            Ok(CoreType::Exists(Box::new(alloc, t)?))
        }
        CoreType::Ref(t) => {
            let t = put_types_in(alloc, t, types, depth)?;
            Ok(CoreType::Ref(Box::new(alloc, t)?))
        }
    }
}

#[cycle(put)]
fn put_types_in_all(
    alloc: Global,
    ts: &[CoreType],
    types: &[CoreType],
    depth: u64,
) -> Result<Vec<CoreType>, OutOfMemory>
    ensures { IfOk result (λ r. all_trees r.items ≡ over_all (placed (all_trees types.now)) depth (all_trees ts.now)) }
{
    let mut made = Vec::with_capacity(alloc, ts.len())?;
    for t in ts {
        made.push(put_types_in(alloc, t, types, depth)?)?;
    }
    Ok(made)
}

/// The type of a code applied to types, and that of integers for any other type. An error is want of memory.
pub fn apply_type(alloc: Global, t: &CoreType, types: &[CoreType]) -> Result<CoreType, OutOfMemory>
    ensures { IfOk result (λ r. tree r ≡ applied_type (tree t.now) (all_trees types.now)) }
{
    match t {
        CoreType::Code { owes, args } => {
            let left = owes.saturating_sub(types.len() as u64);
            let args = put_types_in_all(alloc, args, types, left)?;
            Ok(CoreType::Code { owes: left, args })
        }
        _ => Ok(CoreType::Int),
    }
}
