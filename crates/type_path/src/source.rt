// The first difference of two types of the source.
ghost use Rattle.std.specs.Prelude.{◌≡◌, IfOk, map, option_map};
ghost use Rattle.f_terms.specs.Ty.{tys};
ghost use Rattle.f_terms.specs.Typing.{field_ty};
ghost use Rattle.f_terms.specs.Read.{tree};
ghost use Rattle.type_path.specs.Paths.{read, path_of};
ghost use Rattle.type_path.specs.Source.{into, part, difference, differences};

use crate::step::{Step, inside, one};
use f_terms::FType;
use idx_core::OutOfMemory;
use std::alloc::Global;

/// The path to the first place at which two types differ, its last step first; none where they are equal. An error is
/// want of memory.
#[cycle(finds)]
pub fn source_difference(
    alloc: Global,
    a: &FType,
    b: &FType,
) -> Result<Option<Vec<Step>>, OutOfMemory>
    ensures { IfOk result (λ r. read r ≡ difference (tree a.now) (tree b.now)) }
{
    match (a, b) {
        (FType::Int, FType::Int) => Ok(None),
        (FType::Var(i), FType::Var(j)) if *i == *j => Ok(None),
        (FType::Arrow(a, b), FType::Arrow(c, d)) => {
            let first = inside(source_difference(alloc, a, c)?, Step::Argument)?;
            if first.is_some() {
                return Ok(first);
            }
            inside(source_difference(alloc, b, d)?, Step::Result)
        }
        (FType::All(t), FType::All(u)) => inside(source_difference(alloc, t, u)?, Step::Body),
        (FType::Tuple(ts), FType::Tuple(us)) => fields_difference(alloc, ts, us),
        (FType::Exists(t), FType::Exists(u)) => inside(source_difference(alloc, t, u)?, Step::Body),
        (FType::Ref(t), FType::Ref(u)) => inside(source_difference(alloc, t, u)?, Step::Cell),
        _ => Ok(Some(Vec::new(alloc))),
    }
}

// The same of the fields of two tuples.
#[cycle(finds)]
fn fields_difference(
    alloc: Global,
    ts: &[FType],
    us: &[FType],
) -> Result<Option<Vec<Step>>, OutOfMemory>
    ensures { IfOk result (λ r.
        read r ≡ differences 1 (tys (map tree ts.now)) (tys (map tree us.now))) }
{
    let count = ts.len().min(us.len());
    for i in 0..count {
        let found = inside(
            source_difference(alloc, &ts[i], &us[i])?,
            Step::Field(i as u64 + 1),
        )?;
        if found.is_some() {
            return Ok(found);
        }
    }
    if ts.len() == us.len() {
        return Ok(None);
    }
    one(alloc, Step::Field(count as u64 + 1))
}

// A field by its number, from 1 on.
fn field(ts: &[FType], i: u64) -> Option<&FType>
    ensures { option_map (λ t. tree t.now) result ≡ field_ty (tys (map tree ts.now)) i }
{
    if i == 0 {
        return None;
    }
    let at = (i - 1) as usize;
    if at < ts.len() {
        return Some(&ts[at]);
    }
    None
}

// The part behind a step.
fn step_into(ty: &FType, step: Step) -> Option<&FType>
    ensures { option_map (λ t. tree t.now) result ≡ into step (tree ty.now) }
{
    match (step, ty) {
        (Step::Argument, FType::Arrow(a, _)) => Some(a),
        (Step::Result, FType::Arrow(_, b)) => Some(b),
        (Step::Body, FType::All(t)) => Some(t),
        (Step::Body, FType::Exists(t)) => Some(t),
        (Step::Cell, FType::Ref(t)) => Some(t),
        (Step::Field(i), FType::Tuple(ts)) => field(ts, i),
        _ => None,
    }
}

/// The part of a type at a path whose last step is the first of these, where it has one.
pub fn source_part<'a>(ty: &'a FType, path: &[Step]) -> Option<&'a FType>
    ensures { option_map (λ t. tree t.now) result ≡ part (path_of path.now) (tree ty.now) }
{
    let mut at = path.len();
    let mut part = ty;
    while at > 0 {
        at -= 1;
        part = match step_into(part, path[at]) {
            None => return None,
            Some(next) => next,
        };
    }
    Some(part)
}
