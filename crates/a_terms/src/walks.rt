// Shift and put of types. Where a sum would pass 64 bits, which it does in no program, they answer want of memory.
ghost use Rattle.std.specs.Prelude.{◌≡◌, ◌+◌, ◌≤◌, ◌<◌, ◌^◌, IfOk, length};
ghost use Rattle.idx_core.specs.Over.{shifted, putted};
ghost use Rattle.a_terms.specs.Tree.{AVar, over, over_types, over_fields};
ghost use Rattle.a_terms.specs.Read.{atree, atrees, afields};

use crate::types::AType;
use idx_core::OutOfMemory;
use std::alloc::Global;

/// `a + b`, or want of memory past 64 bits.
pub fn sum(a: u64, b: u64) -> Result<u64, OutOfMemory>
    ensures { IfOk result (λ r. r ≡ a + b) }
{
    match a.checked_add(b) {
        Some(c) => Ok(c),
        None => Err(OutOfMemory),
    }
}

fn moved(by: u64, d: u64, i: u64) -> Result<AType, OutOfMemory>
    ensures { IfOk result (λ r. atree r ≡ shifted AVar by d i) }
{
    if i < d {
        Ok(AType::Var(i))
    } else {
        let j = sum(i, by)?;
        Ok(AType::Var(j))
    }
}

/// The type under `by` more names, where the variables below `d` are bound. An error is want of memory.
#[cycle(shifting)]
pub fn shift_type(alloc: Global, t: &AType, by: u64, d: u64) -> Result<AType, OutOfMemory>
    ensures { IfOk result (λ r. atree r ≡ over (shifted AVar by) d (atree t.now)) }
{
    match t {
        AType::Int => Ok(AType::Int),
        AType::Var(i) => {
            let made = moved(by, d, *i)?;
            Ok(made)
        }
        AType::Tuple(ts) => {
            let parts = shift_fields(alloc, ts, by, d)?;
            Ok(AType::Tuple(parts))
        }
        AType::Code { owes, args } => {
            let inner = sum(d, *owes)?;
            let parts = shift_all(alloc, args, by, inner)?;
            Ok(AType::Code {
                owes: *owes,
                args: parts,
            })
        }
        AType::Exists(body) => {
            let inner = sum(d, 1)?;
            let inside = shift_type(alloc, body, by, inner)?;
            Ok(AType::Exists(Box::new(alloc, inside)?))
        }
    }
}

/// The types under `by` more names. An error is want of memory.
#[cycle(shifting)]
pub fn shift_all(alloc: Global, ts: &[AType], by: u64, d: u64) -> Result<Vec<AType>, OutOfMemory>
    ensures { IfOk result (λ r. atrees r.items ≡ over_types (shifted AVar by) d (atrees ts.now)) }
{
    let mut made = Vec::with_capacity(alloc, ts.len())?;
    for t in ts {
        let one = shift_type(alloc, t, by, d)?;
        made.push(one)?;
    }
    Ok(made)
}

#[cycle(shifting)]
fn shift_fields(
    alloc: Global,
    ts: &[(AType, bool)],
    by: u64,
    d: u64,
) -> Result<Vec<(AType, bool)>, OutOfMemory>
    ensures { IfOk result (λ r. afields r.items ≡ over_fields (shifted AVar by) d (afields ts.now)) }
{
    let mut made = Vec::with_capacity(alloc, ts.len())?;
    for t in ts {
        let one = shift_type(alloc, &t.0, by, d)?;
        made.push((one, t.1))?;
    }
    Ok(made)
}

/// The same type again. An error is want of memory.
pub fn copy(alloc: Global, t: &AType) -> Result<AType, OutOfMemory>
    ensures { IfOk result (λ r. atree r ≡ atree t.now) }
{
    let made = shift_type(alloc, t, 0, 0)?;
    Ok(made)
}

/// The same types again. An error is want of memory.
pub fn copies(alloc: Global, ts: &[AType]) -> Result<Vec<AType>, OutOfMemory>
    ensures { IfOk result (λ r. atrees r.items ≡ atrees ts.now) }
{
    let made = shift_all(alloc, ts, 0, 0)?;
    Ok(made)
}

fn replaced(alloc: Global, s: &AType, c: u64, d: u64, i: u64) -> Result<AType, OutOfMemory>
    requires { c ≤ d }
    ensures { IfOk result (λ r. atree r ≡ putted AVar over c (atree s.now) d i) }
{
    if i < d {
        Ok(AType::Var(i))
    } else if i == d {
        let made = shift_type(alloc, s, d - c, 0)?;
        Ok(made)
    } else {
        Ok(AType::Var(i - 1))
    }
}

/// The type with `s` for the variable `c`, at the depth `d`. An error is want of memory.
#[cycle(putting)]
pub fn put_type(alloc: Global, t: &AType, s: &AType, c: u64, d: u64) -> Result<AType, OutOfMemory>
    requires { c ≤ d }
    ensures { IfOk result (λ r. atree r ≡ over (putted AVar over c (atree s.now)) d (atree t.now)) }
{
    match t {
        AType::Int => Ok(AType::Int),
        AType::Var(i) => {
            let made = replaced(alloc, s, c, d, *i)?;
            Ok(made)
        }
        AType::Tuple(ts) => {
            let parts = put_fields(alloc, ts, s, c, d)?;
            Ok(AType::Tuple(parts))
        }
        AType::Code { owes, args } => {
            let inner = sum(d, *owes)?;
            let parts = put_all(alloc, args, s, c, inner)?;
            Ok(AType::Code {
                owes: *owes,
                args: parts,
            })
        }
        AType::Exists(body) => {
            let inner = sum(d, 1)?;
            let inside = put_type(alloc, body, s, c, inner)?;
            Ok(AType::Exists(Box::new(alloc, inside)?))
        }
    }
}

/// The types with `s` for the variable `c`, at the depth `d`. An error is want of memory.
#[cycle(putting)]
pub fn put_all(
    alloc: Global,
    ts: &[AType],
    s: &AType,
    c: u64,
    d: u64,
) -> Result<Vec<AType>, OutOfMemory>
    requires { c ≤ d }
    ensures { IfOk result (λ r. atrees r.items ≡ over_types (putted AVar over c (atree s.now)) d (atrees ts.now)) }
{
    let mut made = Vec::with_capacity(alloc, ts.len())?;
    for t in ts {
        let one = put_type(alloc, t, s, c, d)?;
        made.push(one)?;
    }
    Ok(made)
}

#[cycle(putting)]
fn put_fields(
    alloc: Global,
    ts: &[(AType, bool)],
    s: &AType,
    c: u64,
    d: u64,
) -> Result<Vec<(AType, bool)>, OutOfMemory>
    requires { c ≤ d }
    ensures { IfOk result (λ r. afields r.items ≡ over_fields (putted AVar over c (atree s.now)) d (afields ts.now)) }
{
    let mut made = Vec::with_capacity(alloc, ts.len())?;
    for t in ts {
        let one = put_type(alloc, &t.0, s, c, d)?;
        made.push((one, t.1))?;
    }
    Ok(made)
}
