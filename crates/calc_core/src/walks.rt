// Shift and put of types, and whether the free variables of one are bound.
ghost use Rattle.std.specs.Prelude.{◌≡◌, ◌≤◌, IfOk};
ghost use Rattle.idx_core.specs.Bound.{Tells};
ghost use Rattle.idx_core.specs.Over.{IsWord, ShiftFitsAt, PutFitsAt};
ghost use Rattle.calc_core.specs.Types.{Ty, VarTy};
ghost use Rattle.calc_core.specs.Read.{tree, all_trees};
ghost use Rattle.calc_core.specs.TyLaws.{types_part, types_over, type_is_below};
ghost use Rattle.calc_core.specs.Walks.{over, each, each_all, shift, shift_all, put_from, put_all_from, ShiftFits};
ghost use Rattle.calc_core.specs.Walks.{PutFits, Below, BelowAll};

use crate::types::CoreType;
use idx_core::{OutOfMemory, Scoped, deeper, index_below};
use std::alloc::Global;

#[cycle(shift)]
fn shift_type(t: &CoreType, alloc: Global, by: u64, cut: u64) -> Result<CoreType, OutOfMemory>
    requires { ShiftFits by cut (tree t.now) }
    ensures { IfOk result (λ r. tree r ≡ shift by cut (tree t.now)) }
{
    match t {
        CoreType::Int => Ok(CoreType::Int),
        CoreType::Var(i) => {
            if *i < cut {
                Ok(CoreType::Var(*i))
            } else {
                Ok(CoreType::Var(*i + by))
            }
        }
        CoreType::Tuple(ts) => {
            let ts = shift_types(ts, alloc, by, cut)?;
            Ok(CoreType::Tuple(ts))
        }
        CoreType::Code { owes, args } => {
            let args = shift_types(args, alloc, by, cut + *owes)?;
            Ok(CoreType::Code { owes: *owes, args })
        }
        CoreType::Exists(t) => {
            let t = shift_type(t, alloc, by, cut + 1)?;
            Ok(CoreType::Exists(Box::new(alloc, t)?))
        }
        CoreType::Ref(t) => {
            let t = shift_type(t, alloc, by, cut)?;
            Ok(CoreType::Ref(Box::new(alloc, t)?))
        }
    }
}

#[cycle(shift)]
fn shift_types(
    ts: &[CoreType],
    alloc: Global,
    by: u64,
    cut: u64,
) -> Result<Vec<CoreType>, OutOfMemory>
    requires { each_all (ShiftFitsAt by) IsWord cut (all_trees ts.now) }
    ensures { IfOk result (λ r. all_trees r.items ≡ shift_all by cut (all_trees ts.now)) }
{
    let mut made = Vec::with_capacity(alloc, ts.len())?;
    for t in ts {
        made.push(shift_type(t, alloc, by, cut)?)?;
    }
    Ok(made)
}

// Puts `what` for the variable that was `at` at the root, where the walk stands at `depth`.
#[cycle(put)]
fn put_type(
    t: &CoreType,
    alloc: Global,
    at: u64,
    depth: u64,
    what: &CoreType,
) -> Result<CoreType, OutOfMemory>
    requires deep { at ≤ depth }
    requires fits { PutFits at (tree what.now) depth (tree t.now) }
    ensures { IfOk result (λ r. tree r ≡ put_from at (tree what.now) depth (tree t.now)) }
{
    match t {
        CoreType::Int => Ok(CoreType::Int),
        CoreType::Var(i) => {
            if *i < depth {
                Ok(CoreType::Var(*i))
            } else if *i == depth {
                shift_type(what, alloc, depth - at, 0)
            } else {
                Ok(CoreType::Var(*i - 1))
            }
        }
        CoreType::Tuple(ts) => {
            let ts = put_types(ts, alloc, at, depth, what)?;
            Ok(CoreType::Tuple(ts))
        }
        CoreType::Code { owes, args } => {
            let args = put_types(args, alloc, at, depth + *owes, what)?;
            Ok(CoreType::Code { owes: *owes, args })
        }
        CoreType::Exists(t) => {
            let t = put_type(t, alloc, at, depth + 1, what)?;
            Ok(CoreType::Exists(Box::new(alloc, t)?))
        }
        CoreType::Ref(t) => {
            let t = put_type(t, alloc, at, depth, what)?;
            Ok(CoreType::Ref(Box::new(alloc, t)?))
        }
    }
}

#[cycle(put)]
fn put_types(
    ts: &[CoreType],
    alloc: Global,
    at: u64,
    depth: u64,
    what: &CoreType,
) -> Result<Vec<CoreType>, OutOfMemory>
    requires deep { at ≤ depth }
    requires fits { each_all (PutFitsAt each at (tree what.now)) IsWord depth (all_trees ts.now) }
    ensures { IfOk result (λ r. all_trees r.items ≡ put_all_from at (tree what.now) depth (all_trees ts.now)) }
{
    let mut made = Vec::with_capacity(alloc, ts.len())?;
    for t in ts {
        made.push(put_type(t, alloc, at, depth, what)?)?;
    }
    Ok(made)
}

// Whether each free index of a type is less than the bound, where `None` is past every index.
#[cycle(below)]
fn type_below(t: &CoreType, bound: Option<u64>) -> bool
    ensures { Tells bound (λ n. Below n (tree t.now)) result }
{
    match t {
        CoreType::Int => true,
        CoreType::Var(i) => index_below(*i, bound),
        CoreType::Tuple(ts) => types_below(ts, bound),
        CoreType::Code { owes, args } => types_below(args, deeper(bound, *owes)),
        CoreType::Exists(t) => type_below(t, deeper(bound, 1)),
        CoreType::Ref(t) => type_below(t, bound),
    }
}

#[cycle(below)]
fn types_below(ts: &[CoreType], bound: Option<u64>) -> bool
    ensures { Tells bound (λ n. BelowAll n (all_trees ts.now)) result }
{
    for t in ts {
        if !type_below(t, bound) {
            return false;
        }
    }
    true
}

impl Scoped for CoreType {
    type Part = CoreType;

    ghost Tree = { Ty };

    ghost PartTree = { Ty };

    ghost tree = { tree };

    ghost part_tree = { tree };

    ghost var = { VarTy };

    ghost over_part = { over };

    ghost over = { over };

    ghost each_part = { each };

    ghost each = { each };

    fn shift(&self, alloc: Global, by: u64, cut: u64) -> Result<CoreType, OutOfMemory> {
        shift_type(self, alloc, by, cut)
    }

    fn put(&self, alloc: Global, at: u64, what: &CoreType) -> Result<CoreType, OutOfMemory> {
        put_type(self, alloc, at, at, what)
    }

    fn below(&self, n: u64) -> bool {
        type_below(self, Some(n))
    }

    ghost is_part = { types_part };

    ghost is_over = { types_over };

    ghost below_is = { type_is_below };
}
