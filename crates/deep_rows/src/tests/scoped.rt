// Shift and put of types of the inner calculi, which no pass calls: what becomes of the variable inside one or two
// `some`s or a `ref`. A shift by 2 from the cut 1 sets two names between the first and the others, and a put takes the
// first name away.
use a_terms::AType;
use idx_core::{OutOfMemory, Scoped};
use k_terms::KType;
use std::alloc::Global;
use std::test::Fail;

fn inside_k(t: &KType) -> Option<u64> {
    match t {
        KType::Var(i) => Some(*i),
        KType::Exists(t) => inside_k(t),
        KType::Ref(t) => inside_k(t),
        _ => None,
    }
}

fn inside_a(t: &AType) -> Option<u64> {
    match t {
        AType::Var(i) => Some(*i),
        AType::Exists(t) => inside_a(t),
        _ => None,
    }
}

fn shifted_outer_k(alloc: Global) -> Result<Option<u64>, OutOfMemory> {
    let t = KType::Exists(Box::new(alloc, KType::Var(2))?);
    let shifted = t.shift(alloc, 2, 1)?;
    Ok(inside_k(&shifted))
}

fn put_outer_k(alloc: Global) -> Result<Option<u64>, OutOfMemory> {
    let t = KType::Exists(Box::new(alloc, KType::Var(2))?);
    let made = t.put(alloc, 0, &KType::Int)?;
    Ok(inside_k(&made))
}

fn shifted_inner_k(alloc: Global) -> Result<Option<u64>, OutOfMemory> {
    let t = KType::Exists(Box::new(alloc, KType::Var(1))?);
    let shifted = t.shift(alloc, 2, 1)?;
    Ok(inside_k(&shifted))
}

fn put_inner_k(alloc: Global) -> Result<Option<u64>, OutOfMemory> {
    let t = KType::Exists(Box::new(alloc, KType::Var(1))?);
    let what = KType::Ref(Box::new(alloc, KType::Var(0))?);
    let made = t.put(alloc, 0, &what)?;
    Ok(inside_k(&made))
}

#[test]
fn types_in_continuation_passing_style(rt: HostRuntime) -> Result<(), Fail> {
    let alloc = rt.alloc();
    assert_eq!(rt; shifted_outer_k(alloc)?, Some(4));
    assert_eq!(rt; put_outer_k(alloc)?, Some(1));
    assert_eq!(rt; shifted_inner_k(alloc)?, Some(1));
    assert_eq!(rt; put_inner_k(alloc)?, Some(1));
    Ok(())
}

fn shifted_outer_a(alloc: Global) -> Result<Option<u64>, OutOfMemory> {
    let t = AType::Exists(Box::new(alloc, AType::Var(2))?);
    let shifted = t.shift(alloc, 2, 1)?;
    Ok(inside_a(&shifted))
}

fn put_outer_a(alloc: Global) -> Result<Option<u64>, OutOfMemory> {
    let t = AType::Exists(Box::new(alloc, AType::Var(2))?);
    let made = t.put(alloc, 0, &AType::Int)?;
    Ok(inside_a(&made))
}

fn shifted_inner_a(alloc: Global) -> Result<Option<u64>, OutOfMemory> {
    let t = AType::Exists(Box::new(alloc, AType::Var(1))?);
    let shifted = t.shift(alloc, 2, 1)?;
    Ok(inside_a(&shifted))
}

fn put_inner_a(alloc: Global) -> Result<Option<u64>, OutOfMemory> {
    let t = AType::Exists(Box::new(alloc, AType::Var(1))?);
    let what = AType::Exists(Box::new(alloc, AType::Var(1))?);
    let made = t.put(alloc, 0, &what)?;
    Ok(inside_a(&made))
}

#[test]
fn allocated_types(rt: HostRuntime) -> Result<(), Fail> {
    let alloc = rt.alloc();
    assert_eq!(rt; shifted_outer_a(alloc)?, Some(4));
    assert_eq!(rt; put_outer_a(alloc)?, Some(1));
    assert_eq!(rt; shifted_inner_a(alloc)?, Some(1));
    assert_eq!(rt; put_inner_a(alloc)?, Some(2));
    Ok(())
}
