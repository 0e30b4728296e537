// The depth and the size of a type, counted before the type is made.
ghost use Rattle.std.specs.Prelude.{◌≡◌, ◌+◌, ◌≤◌, ◌⊎◌, OnOk, IfErr, min};
ghost use Rattle.f_terms.specs.Ty.{depth};
ghost use Rattle.f_terms.specs.Read.{tree, place};
ghost use Rattle.f_check.specs.Counts.{put_size, put_depth};
ghost use Rattle.f_check.specs.Told.{Tells, counted};

use crate::failure::Failure;
use f_terms::{Code, FType};
use idx_core::Span;

// How deep a type may be.
pub(crate) const DEPTH: u64 = 200;

// How many nodes a type may have.
pub(crate) const SIZE: u64 = 10000;

// The limits of a type that has this depth and size.
pub(crate) fn limit(deep: u64, wide: u64, span: Span) -> Result<(), Failure>
    ensures ok { OnOk result ((deep ≤ 200) × (wide ≤ 10000)) }
    ensures fault { IfErr result (λ f. Tells f (counted deep wide (place span))) }
{
    if deep > DEPTH {
        return Err(Failure::Refused {
            code: Code::L4,
            span,
            mismatch: None,
        });
    }
    if wide > SIZE {
        return Err(Failure::Refused {
            code: Code::L5,
            span,
            mismatch: None,
        });
    }
    Ok(())
}

// The size of a type after a put of one of size `what`, or the last `u64` where that is less.
pub(crate) fn put_size(t: &FType, at: u64, what: u64) -> u64
    requires { at + depth (tree t.now) ≤ u64.MAX }
    ensures { result ≡ min (put_size what at (tree t.now)) u64.MAX }
{
    match t {
        FType::Int => 1,
        FType::Var(i) => { if *i == at { what } else { 1 } }
        FType::Arrow(a, b) => {
            let parts = put_size(a, at, what).saturating_add(put_size(b, at, what));
            parts.saturating_add(1)
        }
        FType::All(t) => put_size(t, at + 1, what).saturating_add(1),
        FType::Tuple(ts) => {
            let mut sum = 1u64;
            for part in ts {
                sum = sum.saturating_add(put_size(part, at, what));
            }
            sum
        }
        FType::Exists(t) => put_size(t, at + 1, what).saturating_add(1),
        FType::Ref(t) => put_size(t, at, what).saturating_add(1),
    }
}

// The depth of a type after a put of one of depth `what`, or the last `u64` where that is less.
pub(crate) fn put_depth(t: &FType, at: u64, what: u64) -> u64
    requires { at + depth (tree t.now) ≤ u64.MAX }
    ensures { result ≡ min (put_depth what at (tree t.now)) u64.MAX }
{
    match t {
        FType::Int => 1,
        FType::Var(i) => { if *i == at { what } else { 1 } }
        FType::Arrow(a, b) => {
            let most = put_depth(a, at, what).max(put_depth(b, at, what));
            most.saturating_add(1)
        }
        FType::All(t) => put_depth(t, at + 1, what).saturating_add(1),
        FType::Tuple(ts) => {
            let mut most = 0u64;
            for part in ts {
                most = most.max(put_depth(part, at, what));
            }
            most.saturating_add(1)
        }
        FType::Exists(t) => put_depth(t, at + 1, what).saturating_add(1),
        FType::Ref(t) => put_depth(t, at, what).saturating_add(1),
    }
}
