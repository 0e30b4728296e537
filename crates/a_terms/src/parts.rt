// Parts of types, and types put for those that code owes.
ghost use Rattle.std.specs.Prelude.{◌≡◌, ℕ, Some, IfOk, MatchOption};
ghost use Rattle.a_terms.specs.Tree.{ACode, ATuple, ATys, AFields, NoATys, MoreATys, ashift, aput_types};
ghost use Rattle.a_terms.specs.Typing.{aflagged, applied, or_int, field_of as the_field_of, body_of as the_body_of};
ghost use Rattle.a_terms.specs.Typing.{filled_of as the_filled_of};
ghost use Rattle.a_terms.specs.Read.{atree, atrees, afields, maybe};

use crate::types::AType;
use crate::walks::{copy, put_all, shift_type};
use idx_core::OutOfMemory;
use std::alloc::Global;

// How many types code owes, and its arguments' types.
fn code_parts(t: AType) -> Option<(u64, Vec<AType>)>
    ensures { MatchOption result ((n : ℕ) (us : ATys) → atree t ≡ ACode n us → ⊥)
        (λ p. atree t ≡ ACode p.0 (atrees p.1.items)) }
{
    match t {
        AType::Code { owes, args } => Some((owes, args)),
        AType::Int | AType::Var(_) | AType::Exists(_) | AType::Tuple(_) => None,
    }
}

// The fields of a tuple.
fn tuple_parts(t: AType) -> Option<Vec<(AType, bool)>>
    ensures { MatchOption result ((fs : AFields) → atree t ≡ ATuple fs → ⊥) (λ p. atree t ≡ ATuple (afields p.items)) }
{
    match t {
        AType::Tuple(fields) => Some(fields),
        AType::Int | AType::Var(_) | AType::Exists(_) | AType::Code { .. } => None,
    }
}

// The arguments' types where a type goes to code.
fn instantiate(
    alloc: Global,
    args: &[AType],
    t: &AType,
    left: u64,
) -> Result<Vec<AType>, OutOfMemory>
    ensures { IfOk result (λ r. atrees r.items ≡ aput_types left (ashift left 0 (atree t.now)) (atrees args.now)) }
{
    let what = shift_type(alloc, t, left, 0)?;
    let made = put_all(alloc, args, &what, left, left)?;
    Ok(made)
}

fn apply_code(
    alloc: Global,
    owes: u64,
    args: &[AType],
    t: &AType,
) -> Result<Option<AType>, OutOfMemory>
    ensures { IfOk result (λ r. maybe r ≡ applied (Some (ACode owes (atrees args.now)))
        (MoreATys (atree t.now) NoATys)) }
{
    if owes == 0 {
        return Ok(None);
    }
    let left = owes - 1;
    let made = instantiate(alloc, args, t, left)?;
    Ok(Some(AType::Code {
        owes: left,
        args: made,
    }))
}

fn apply_one(alloc: Global, ty: Option<AType>, t: &AType) -> Result<Option<AType>, OutOfMemory>
    ensures { IfOk result (λ r. maybe r ≡ applied (maybe ty) (MoreATys (atree t.now) NoATys)) }
{
    match ty {
        None => Ok(None),
        Some(code) => {
            match code_parts(code) {
                None => Ok(None),
                Some(parts) => {
                    let made = apply_code(alloc, parts.0, &parts.1, t)?;
                    Ok(made)
                }
            }
        }
    }
}

/// The type of what is applied to types, if it is code that owes as many. An error is want of memory.
pub fn apply_all(
    alloc: Global,
    ty: Option<AType>,
    ts: &[AType],
) -> Result<Option<AType>, OutOfMemory>
    ensures { IfOk result (λ r. maybe r ≡ applied (maybe ty) (atrees ts.now)) }
{
    let mut made = ty;
    for t in ts {
        made = apply_one(alloc, made, t)?;
    }
    Ok(made)
}

/// The type, or that of integers where there is none.
pub fn known(ty: Option<AType>) -> AType
    ensures { atree result ≡ or_int (maybe ty) }
{
    match ty {
        Some(t) => t,
        None => AType::Int,
    }
}

fn field_at(alloc: Global, fields: &[(AType, bool)], i: u64, by: u64) -> Result<AType, OutOfMemory>
    ensures { IfOk result (λ r. atree r ≡ ashift by 0 (the_field_of i (Some (ATuple (afields fields.now))))) }
{
    if i == 0 {
        return Ok(AType::Int);
    }
    if i - 1 < fields.len() as u64 {
        let made = shift_type(alloc, &fields[(i - 1) as usize].0, by, 0)?;
        Ok(made)
    } else {
        Ok(AType::Int)
    }
}

/// The type of field i of a tuple, from 1 on, under `by` more names. An error is want of memory.
pub fn field_of(alloc: Global, t: &AType, i: u64, by: u64) -> Result<AType, OutOfMemory>
    ensures { IfOk result (λ r. atree r ≡ ashift by 0 (the_field_of i (Some (atree t.now)))) }
{
    match t {
        AType::Tuple(fields) => {
            let made = field_at(alloc, fields, i, by)?;
            Ok(made)
        }
        AType::Int | AType::Var(_) | AType::Exists(_) | AType::Code { .. } => Ok(AType::Int),
    }
}

/// What a package hides, where there are `by` more names around the package. An error is want of memory.
pub fn body_of(alloc: Global, t: &AType, by: u64) -> Result<AType, OutOfMemory>
    ensures { IfOk result (λ r. atree r ≡ ashift by 1 (the_body_of (Some (atree t.now)))) }
{
    match t {
        AType::Exists(body) => {
            let made = shift_type(alloc, body, by, 1)?;
            Ok(made)
        }
        AType::Int | AType::Var(_) | AType::Tuple(_) | AType::Code { .. } => Ok(AType::Int),
    }
}

// The tuple where field i is initialised.
fn fill_at(fields: Vec<(AType, bool)>, i: u64) -> AType
    ensures { atree result ≡ the_filled_of i (Some (ATuple (afields fields.items))) }
{
    if i == 0 {
        return AType::Int;
    }
    if i - 1 >= fields.len() as u64 {
        return AType::Tuple(fields);
    }
    let mut made = fields;
    made[(i - 1) as usize].1 = true;
    AType::Tuple(made)
}

/// The type of a tuple once field i is initialised.
pub fn filled_of(ty: Option<AType>, i: u64) -> AType
    ensures { atree result ≡ the_filled_of i (maybe ty) }
{
    match ty {
        None => AType::Int,
        Some(tuple) => {
            match tuple_parts(tuple) {
                None => AType::Int,
                Some(fields) => fill_at(fields, i),
            }
        }
    }
}

/// A tuple of fields that each have this flag. An error is want of memory.
pub fn flagged_tuple(alloc: Global, types: &[AType], flag: bool) -> Result<AType, OutOfMemory>
    ensures { IfOk result (λ r. atree r ≡ ATuple (aflagged flag (atrees types.now))) }
{
    let mut fields = Vec::with_capacity(alloc, types.len())?;
    for t in types {
        let one = copy(alloc, t)?;
        fields.push((one, flag))?;
    }
    Ok(AType::Tuple(fields))
}
