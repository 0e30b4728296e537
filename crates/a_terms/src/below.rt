// How many variables of a type are free, and that types have shift, put and below.
ghost use Rattle.idx_core.specs.Bound.{Tells};
ghost use Rattle.a_terms.specs.Read.{atree, atrees, afields};
ghost use Rattle.a_terms.specs.Tree.{ATy, AVar, over, each, ABelow, ABelow-types, ABelow-fields};
ghost use Rattle.a_terms.specs.TreeLaws.{a_part, a_over, a_is_below};

use crate::types::AType;
use crate::walks::{put_type, shift_type};
use idx_core::{OutOfMemory, Scoped, deeper, index_below};
use std::alloc::Global;

// Whether each free index of a type is less than the bound, where `None` is past every index.
#[cycle(below)]
fn type_below(t: &AType, bound: Option<u64>) -> bool
    ensures { Tells bound (λ n. ABelow n (atree t.now)) result }
{
    match t {
        AType::Int => true,
        AType::Var(i) => index_below(*i, bound),
        AType::Tuple(fs) => fields_below(fs, bound),
        AType::Code { owes, args } => all_below(args, deeper(bound, *owes)),
        AType::Exists(t) => type_below(t, deeper(bound, 1)),
    }
}

#[cycle(below)]
fn all_below(ts: &[AType], bound: Option<u64>) -> bool
    ensures { Tells bound (λ n. ABelow-types n (atrees ts.now)) result }
{
    for t in ts {
        if !type_below(t, bound) {
            return false;
        }
    }
    true
}

#[cycle(below)]
fn fields_below(fs: &[(AType, bool)], bound: Option<u64>) -> bool
    ensures { Tells bound (λ n. ABelow-fields n (afields fs.now)) result }
{
    for field in fs {
        if !type_below(&field.0, bound) {
            return false;
        }
    }
    true
}

impl Scoped for AType {
    type Part = AType;

    ghost Tree = { ATy };

    ghost PartTree = { ATy };

    ghost tree = { atree };

    ghost part_tree = { atree };

    ghost var = { AVar };

    ghost over_part = { over };

    ghost over = { over };

    ghost each_part = { each };

    ghost each = { each };

    fn shift(&self, alloc: Global, by: u64, cut: u64) -> Result<AType, OutOfMemory> {
        shift_type(alloc, self, by, cut)
    }

    fn put(&self, alloc: Global, at: u64, what: &AType) -> Result<AType, OutOfMemory> {
        put_type(alloc, self, what, at, at)
    }

    fn below(&self, n: u64) -> bool {
        type_below(self, Some(n))
    }

    ghost is_part = { a_part };

    ghost is_over = { a_over };

    ghost below_is = { a_is_below };
}
