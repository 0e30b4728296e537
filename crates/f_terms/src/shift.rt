// Shift and put of types, and whether the free names of one are bound.
ghost use Rattle.std.specs.Prelude.{◌≡◌, ℕ, ◌≤◌, ◌^◌, ◌↔◌, IfOk, IsTrue};
ghost use Rattle.f_terms.specs.Ty.{Ty, TVar, over, each, shift, put_from, Below, ShiftFits, PutFits};
ghost use Rattle.f_terms.specs.Read.{tree};
ghost use Rattle.f_terms.specs.TyLaws.{types_part, types_over, type_is_below};

use crate::types::FType;
use idx_core::{OutOfMemory, Scoped};
use std::alloc::Global;

fn shift_type(t: &FType, alloc: Global, by: u64, cut: u64) -> Result<FType, OutOfMemory>
    requires { ShiftFits by cut (tree t.now) }
    ensures { IfOk result (λ r. tree r ≡ shift by cut (tree t.now)) }
{
    match t {
        FType::Int => Ok(FType::Int),
        FType::Var(i) => {
            if *i < cut {
                Ok(FType::Var(*i))
            } else {
                Ok(FType::Var(*i + by))
            }
        }
        FType::Arrow(a, b) => {
            let a = shift_type(a, alloc, by, cut)?;
            let b = shift_type(b, alloc, by, cut)?;
            Ok(FType::Arrow(Box::new(alloc, a)?, Box::new(alloc, b)?))
        }
        FType::All(t) => {
            let t = shift_type(t, alloc, by, cut + 1)?;
            Ok(FType::All(Box::new(alloc, t)?))
        }
        FType::Tuple(ts) => {
            let mut parts = Vec::new(alloc);
            for part in ts {
                parts.push(shift_type(part, alloc, by, cut)?)?;
            }
            Ok(FType::Tuple(parts))
        }
        FType::Exists(t) => {
            let t = shift_type(t, alloc, by, cut + 1)?;
            Ok(FType::Exists(Box::new(alloc, t)?))
        }
        FType::Ref(t) => {
            let t = shift_type(t, alloc, by, cut)?;
            Ok(FType::Ref(Box::new(alloc, t)?))
        }
    }
}

// Puts `what` for the variable that was `at` at the root, where the walk stands at `depth`.
fn put_type(
    t: &FType,
    alloc: Global,
    at: u64,
    depth: u64,
    what: &FType,
) -> Result<FType, OutOfMemory>
    requires deep { at ≤ depth }
    requires fits { PutFits at (tree what.now) depth (tree t.now) }
    ensures { IfOk result (λ r. tree r ≡ put_from at (tree what.now) depth (tree t.now)) }
{
    match t {
        FType::Int => Ok(FType::Int),
        FType::Var(i) => {
            if *i < depth {
                Ok(FType::Var(*i))
            } else if *i == depth {
                shift_type(what, alloc, depth - at, 0)
            } else {
                Ok(FType::Var(*i - 1))
            }
        }
        FType::Arrow(a, b) => {
            let a = put_type(a, alloc, at, depth, what)?;
            let b = put_type(b, alloc, at, depth, what)?;
            Ok(FType::Arrow(Box::new(alloc, a)?, Box::new(alloc, b)?))
        }
        FType::All(t) => {
            let t = put_type(t, alloc, at, depth + 1, what)?;
            Ok(FType::All(Box::new(alloc, t)?))
        }
        FType::Tuple(ts) => {
            let mut parts = Vec::new(alloc);
            for part in ts {
                parts.push(put_type(part, alloc, at, depth, what)?)?;
            }
            Ok(FType::Tuple(parts))
        }
        FType::Exists(t) => {
            let t = put_type(t, alloc, at, depth + 1, what)?;
            Ok(FType::Exists(Box::new(alloc, t)?))
        }
        FType::Ref(t) => {
            let t = put_type(t, alloc, at, depth, what)?;
            Ok(FType::Ref(Box::new(alloc, t)?))
        }
    }
}

// True: every index is a number of 64 bits.
fn has_words(t: &FType) -> bool
    ensures is_true { IsTrue result }
    ensures below { (m : ℕ) → 2 ^ 64 ≤ m → Below m (tree t.now) }
{
    match t {
        FType::Int => true,
        FType::Var(i) => *i <= u64::MAX,
        FType::Arrow(a, b) => has_words(a) && has_words(b),
        FType::All(t) => has_words(t),
        FType::Tuple(ts) => {
            for part in ts {
                let _ = has_words(part);
            }
            true
        }
        FType::Exists(t) => has_words(t),
        FType::Ref(t) => has_words(t),
    }
}

fn type_below(t: &FType, n: u64) -> bool
    ensures { IsTrue result ↔ Below n (tree t.now) }
{
    match t {
        FType::Int => true,
        FType::Var(i) => *i < n,
        FType::Arrow(a, b) => type_below(a, n) && type_below(b, n),
        FType::All(t) => match n.checked_add(1) {
            Some(m) => type_below(t, m),
            None => has_words(t),
        },
        FType::Tuple(ts) => {
            for part in ts {
                if !type_below(part, n) {
                    return false;
                }
            }
            true
        }
        FType::Exists(t) => match n.checked_add(1) {
            Some(m) => type_below(t, m),
            None => has_words(t),
        },
        FType::Ref(t) => type_below(t, n),
    }
}

impl Scoped for FType {
    type Part = FType;

    ghost Tree = { Ty };

    ghost PartTree = { Ty };

    ghost tree = { tree };

    ghost part_tree = { tree };

    ghost var = { TVar };

    ghost over_part = { over };

    ghost over = { over };

    ghost each_part = { each };

    ghost each = { each };

    fn shift(&self, alloc: Global, by: u64, cut: u64) -> Result<FType, OutOfMemory> {
        shift_type(self, alloc, by, cut)
    }

    fn put(&self, alloc: Global, at: u64, what: &FType) -> Result<FType, OutOfMemory> {
        put_type(self, alloc, at, at, what)
    }

    fn below(&self, n: u64) -> bool {
        type_below(self, n)
    }

    ghost is_part = { types_part };

    ghost is_over = { types_over };

    ghost below_is = { type_is_below };
}
