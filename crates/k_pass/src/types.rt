// The types of the calculus in continuation-passing style.
ghost use Rattle.std.specs.Prelude.{◌≡◌, IfOk};
ghost use Rattle.std.specs.Prelude.{suc, ◌-◌};
ghost use Rattle.calc_core.specs.Ends.{under};
ghost use Rattle.f_terms.specs.Ty.{TArrow};
ghost use Rattle.f_terms.specs.NotedTerm as noted;
ghost use Rattle.f_terms.specs.Read.{tree};
ghost use Rattle.k_terms.specs.K.{TKCode, NoKTys, MoreKTys};
ghost use Rattle.k_terms.specs.Read.{ktree, ktys};
ghost use Rattle.k_laws.specs.Cps.{kty, kat, kcat, spot, taking};
ghost use Rattle.k_pass.specs.Emit.{fix_args, gen_args};
ghost use Rattle.k_pass.specs.Machine.{levels as levels_of};

use crate::access::{deeper, level_of};
use f_terms::FType;
use idx_core::OutOfMemory;
use k_terms::KType;
use std::alloc::Global;

// The type of what takes a value.
pub(crate) fn taking_type(alloc: Global, t: KType) -> Result<KType, OutOfMemory>
    ensures { IfOk result (λ r. ktree r ≡ taking (ktree t)) }
{
    let mut args = Vec::with_capacity(alloc, 1)?;
    args.push(t)?;
    Ok(KType::Code { owes: 0, args })
}

// The type of a function.
pub(crate) fn arrow_type(alloc: Global, a: KType, b: KType) -> Result<KType, OutOfMemory>
    ensures { IfOk result (λ r. ktree r ≡ TKCode 0 (MoreKTys (ktree a) (MoreKTys (taking (ktree b)) NoKTys))) }
{
    let mut args = Vec::with_capacity(alloc, 2)?;
    args.push(a)?;
    let rest = taking_type(alloc, b)?;
    args.push(rest)?;
    Ok(KType::Code { owes: 0, args })
}

// The type of a suspended body.
pub(crate) fn all_type(alloc: Global, t: KType) -> Result<KType, OutOfMemory>
    ensures { IfOk result (λ r. ktree r ≡ TKCode 1 (MoreKTys (taking (ktree t)) NoKTys)) }
{
    let mut args = Vec::with_capacity(alloc, 1)?;
    let rest = taking_type(alloc, t)?;
    args.push(rest)?;
    Ok(KType::Code { owes: 1, args })
}

// How many type variables are inside of that of a level.
fn inside_of(types: u64, level: u64) -> u64
    ensures { result ≡ types - suc level }
{
    if level < types { types - level - 1 } else { 0 }
}

// The type variable that stands for one of the source, in a type under so many names of its own.
pub(crate) fn variable(
    i: u64,
    types: u64,
    levels: &Vec<u64>,
    bound: u64,
) -> Result<u64, OutOfMemory>
    ensures { IfOk result (λ r. r ≡ under bound (spot types (levels_of levels.now.items)) i) }
{
    if i < bound {
        return Ok(i);
    }
    let level = level_of(levels, i - bound);
    let inside = inside_of(types, level);
    match bound.checked_add(inside) {
        Some(j) => Ok(j),
        None => Err(OutOfMemory),
    }
}

// The type at a place with so many type variables, where the source's type names have these levels, under so many names
// of its own.
pub(crate) fn k_type(
    alloc: Global,
    t: &FType,
    types: u64,
    levels: &Vec<u64>,
    bound: u64,
) -> Result<KType, OutOfMemory>
    ensures { IfOk result (λ r. ktree r ≡ kty (under bound (spot types (levels_of levels.now.items))) (tree t.now)) }
{
    match t {
        FType::Int => Ok(KType::Int),
        FType::Var(i) => {
            let j = variable(*i, types, levels, bound)?;
            Ok(KType::Var(j))
        }
        FType::Arrow(a, b) => {
            let a = k_type(alloc, a, types, levels, bound)?;
            let b = k_type(alloc, b, types, levels, bound)?;
            let made = arrow_type(alloc, a, b)?;
            Ok(made)
        }
        FType::All(body) => {
            let inside = deeper(bound)?;
            let body = k_type(alloc, body, types, levels, inside)?;
            let made = all_type(alloc, body)?;
            Ok(made)
        }
        FType::Tuple(ts) => {
            let mut parts = Vec::with_capacity(alloc, ts.len())?;
            for part in ts {
                parts.push(k_type(alloc, part, types, levels, bound)?)?;
            }
            Ok(KType::Tuple(parts))
        }
        FType::Exists(body) => {
            let inside = deeper(bound)?;
            let body = k_type(alloc, body, types, levels, inside)?;
            Ok(KType::Exists(Box::new(alloc, body)?))
        }
        FType::Ref(held) => {
            let held = k_type(alloc, held, types, levels, bound)?;
            Ok(KType::Ref(Box::new(alloc, held)?))
        }
    }
}

// The type at a place.
pub(crate) fn k_type_at(
    alloc: Global,
    t: &FType,
    types: u64,
    levels: &Vec<u64>,
) -> Result<KType, OutOfMemory>
    ensures { IfOk result (λ r. ktree r ≡ kat types (levels_of levels.now.items) (tree t.now)) }
{
    let made = k_type(alloc, t, types, levels, 0)?;
    Ok(made)
}

// The type of what a package holds, under the name of the hidden type.
pub(crate) fn opened_type(
    alloc: Global,
    t: &FType,
    types: u64,
    levels: &Vec<u64>,
) -> Result<KType, OutOfMemory>
    ensures { IfOk result (λ r. ktree r ≡ kty (under 1 (spot types (levels_of levels.now.items))) (tree t.now)) }
{
    let made = k_type(alloc, t, types, levels, 1)?;
    Ok(made)
}

// What an `all` stands before.
pub(crate) fn under_all(t: &FType) -> &FType
    ensures { tree result.now ≡ noted.under_all (tree t.now) }
{
    match t {
        FType::All(body) => body,
        _ => t,
    }
}

// The types that a rest takes.
pub(crate) fn rest_types(
    alloc: Global,
    t: &FType,
    types: u64,
    levels: &Vec<u64>,
) -> Result<Vec<KType>, OutOfMemory>
    ensures { IfOk result (λ v. ktys v.items ≡ MoreKTys (kat types (levels_of levels.now.items) (tree t.now)) NoKTys) }
{
    let mut args = Vec::with_capacity(alloc, 1)?;
    args.push(k_type_at(alloc, t, types, levels)?)?;
    Ok(args)
}

// The types that a suspended body takes.
pub(crate) fn gen_types(
    alloc: Global,
    t: &FType,
    types: u64,
    levels: &Vec<u64>,
) -> Result<Vec<KType>, OutOfMemory>
    ensures { IfOk result (λ v. ktys v.items ≡ gen_args types (levels_of levels.now.items) (tree t.now)) }
{
    let mut args = Vec::with_capacity(alloc, 1)?;
    let k = k_type_at(alloc, t, types, levels)?;
    args.push(taking_type(alloc, k)?)?;
    Ok(args)
}

// The types that a function takes.
pub(crate) fn fix_types(
    alloc: Global,
    arg: &FType,
    res: &FType,
    types: u64,
    levels: &Vec<u64>,
) -> Result<Vec<KType>, OutOfMemory>
    ensures { IfOk result (λ v.
        ktys v.items ≡ fix_args types (levels_of levels.now.items) (tree arg.now) (tree res.now)) }
{
    let mut args = rest_types(alloc, arg, types, levels)?;
    let k = k_type_at(alloc, res, types, levels)?;
    args.push(taking_type(alloc, k)?)?;
    Ok(args)
}

// The type of a function, where it is named.
pub(crate) fn fix_type(
    alloc: Global,
    arg: &FType,
    res: &FType,
    types: u64,
    levels: &Vec<u64>,
) -> Result<KType, OutOfMemory>
    ensures { IfOk result (λ r.
        ktree r ≡ TKCode 0 (fix_args types (levels_of levels.now.items) (tree arg.now) (tree res.now))) }
{
    let a = k_type_at(alloc, arg, types, levels)?;
    let b = k_type_at(alloc, res, types, levels)?;
    let made = arrow_type(alloc, a, b)?;
    Ok(made)
}

// The type of a suspended body, where it is named, under its own type variable.
pub(crate) fn gen_type(
    alloc: Global,
    t: &FType,
    types: u64,
    levels: &Vec<u64>,
) -> Result<KType, OutOfMemory>
    ensures { IfOk result (λ r. ktree r ≡ TKCode 1 (gen_args types (levels_of levels.now.items) (tree t.now))) }
{
    let k = k_type_at(alloc, t, types, levels)?;
    let made = all_type(alloc, k)?;
    Ok(made)
}

// The type of a rest, where it is named.
pub(crate) fn rest_type(
    alloc: Global,
    t: &FType,
    types: u64,
    levels: &Vec<u64>,
) -> Result<KType, OutOfMemory>
    ensures { IfOk result (λ r. ktree r ≡ kcat types (levels_of levels.now.items) (tree t.now)) }
{
    let k = k_type_at(alloc, t, types, levels)?;
    let made = taking_type(alloc, k)?;
    Ok(made)
}
