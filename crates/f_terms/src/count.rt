// Counts of a type, and equality.
ghost use Rattle.std.specs.Prelude.{◌≡◌, ◌↔◌, IsTrue, min};
ghost use Rattle.f_terms.specs.Ty.{size, depth};
ghost use Rattle.f_terms.specs.Read.{tree};

use crate::types::FType;

/// The number of nodes of a type, or the last `u64` where that is less (own choice).
pub fn size(t: &FType) -> u64
    ensures { result ≡ min (size (tree t.now)) u64.MAX }
{
    match t {
        FType::Int => 1,
        FType::Var(_) => 1,
        FType::Arrow(a, b) => size(a).saturating_add(size(b)).saturating_add(1),
        FType::All(t) => size(t).saturating_add(1),
        FType::Tuple(ts) => {
            let mut sum = 1u64;
            for part in ts {
                sum = sum.saturating_add(size(part));
            }
            sum
        }
        FType::Exists(t) => size(t).saturating_add(1),
        FType::Ref(t) => size(t).saturating_add(1),
    }
}

/// The depth of a type, or the last `u64` where that is less: 1 where it has no parts, else 1 and the greatest depth of
/// its parts (own choice).
pub fn depth(t: &FType) -> u64
    ensures { result ≡ min (depth (tree t.now)) u64.MAX }
{
    match t {
        FType::Int => 1,
        FType::Var(_) => 1,
        FType::Arrow(a, b) => {
            let most = depth(a).max(depth(b));
            most.saturating_add(1)
        }
        FType::All(t) => depth(t).saturating_add(1),
        FType::Tuple(ts) => {
            let mut most = 0u64;
            for part in ts {
                most = most.max(depth(part));
            }
            most.saturating_add(1)
        }
        FType::Exists(t) => depth(t).saturating_add(1),
        FType::Ref(t) => depth(t).saturating_add(1),
    }
}

/// Whether two types are equal. Names are numbers, so types that differ in bound names alone are equal.
pub fn eq(a: &FType, b: &FType) -> bool
    ensures { IsTrue result ↔ tree a.now ≡ tree b.now }
{
    match (a, b) {
        (FType::Int, FType::Int) => true,
        (FType::Var(i), FType::Var(j)) => *i == *j,
        (FType::Arrow(a, b), FType::Arrow(c, d)) => eq(a, c) && eq(b, d),
        (FType::All(s), FType::All(t)) => eq(s, t),
        (FType::Exists(s), FType::Exists(t)) => eq(s, t),
        (FType::Ref(s), FType::Ref(t)) => eq(s, t),
        (FType::Tuple(ss), FType::Tuple(ts)) => {
            if ss.len() != ts.len() {
                return false;
            }
            for (i, s) in ss.iter().enumerate() {
                if !eq(s, &ts[i]) {
                    return false;
                }
            }
            true
        }
        _ => false,
    }
}
