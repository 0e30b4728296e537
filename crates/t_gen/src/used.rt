// Sets of variables.
ghost use Rattle.std.specs.Prelude.{◌≡◌, ℕ, ◌+◌, ◌||◌, ◌&&◌, not, ◌==◌, Bool, false, suc, IfOk, OnOk};
ghost use Rattle.a_terms.specs.NodeTrees.{a_value, a_values};
ghost use Rattle.t_gen_rules.specs.Gen.{uses, uses_any};
ghost use Rattle.t_gen.specs.Uses.{has, Listed, mem};

use a_terms::{ABase, AValue};
use idx_core::{OutOfMemory, sum};
use std::alloc::Global;
use std::collections::BTreeSet;

/// Variables: each by its number, with `offset` added. So each number is one less where `offset` is one more.
#[derive(Drop)]
pub struct Used {
    pub keys: BTreeSet<u64>,
    pub offset: u64,
}

/// No variables.
pub(crate) fn none(alloc: Global) -> Used
    ensures { (n : ℕ) → has result n ≡ false }
{
    Used {
        keys: BTreeSet::new(alloc),
        offset: 0,
    }
}

/// Whether variable n is among them. An error is want of memory.
pub(crate) fn has_number(used: &Used, n: u64) -> Result<bool, OutOfMemory>
    ensures { IfOk result (λ r. r ≡ has used.now n) }
{
    let key = sum(n, used.offset)?;
    Ok(used.keys.contains(&key))
}

// Variable n is put among them.
fn add(used: &mut Used, n: u64) -> Result<(), OutOfMemory>
    ensures { OnOk result ((i : ℕ) → has used.new i ≡ (has used.old i || (n == i))) }
{
    let key = sum(n, used.offset)?;
    used.keys.insert(key)?;
    Ok(())
}

// The variable of a value is put among them.
fn note(used: &mut Used, v: &AValue) -> Result<(), OutOfMemory>
    ensures { OnOk result ((i : ℕ) → has used.new i ≡ (has used.old i || uses (a_value v.now) i)) }
{
    match v.base {
        ABase::Var(n) => Ok(add(used, n)?),
        ABase::Int(_) => Ok(()),
        ABase::Label(_) => Ok(()),
        ABase::Data(_) => Ok(()),
    }
}

/// The variables of values are put among them. An error is want of memory.
pub(crate) fn note_all(used: &mut Used, values: &[AValue]) -> Result<(), OutOfMemory>
    ensures { OnOk result ((i : ℕ) → has used.new i ≡ (has used.old i || uses_any (a_values values.now) i)) }
{
    for v in values {
        note(used, v)?;
    }
    Ok(())
}

/// The variables by their numbers outside the last declaration. An error is want of memory.
pub(crate) fn outside(used: &mut Used) -> Result<(), OutOfMemory>
    ensures { OnOk result ((i : ℕ) → has used.new i ≡ has used.old (suc i)) }
{
    let offset = sum(used.offset, 1)?;
    let _ = used.keys.remove(&used.offset);
    used.offset = offset;
    Ok(())
}

/// These variables are put among them too. An error is want of memory.
pub(crate) fn add_all(used: &mut Used, numbers: &[u64]) -> Result<(), OutOfMemory>
    ensures { OnOk result ((u : ℕ → Bool) → Listed u 0 numbers.now → (i : ℕ) →
        has used.new i ≡ (has used.old i || u i)) }
{
    for i in 0..numbers.len() {
        add(used, numbers[i])?;
    }
    Ok(())
}

/// The variables by their numbers, in ascending order. An error is want of memory.
pub(crate) fn list(alloc: Global, used: Used) -> Result<Vec<u64>, OutOfMemory>
    ensures { IfOk result (λ r. (u : ℕ → Bool) → ((i : ℕ) → has used i ≡ u i) → Listed u 0 r.items) }
{
    let Used { keys, offset } = used;
    let mut left = keys;
    let mut numbers = Vec::new(alloc);
    while let Some(key) = left.pop_first() {
        if key >= offset {
            numbers.push(key - offset)?;
        }
    }
    Ok(numbers)
}

// Variable n is put at the end, unless it is used.
fn push_missing(numbers: &mut Vec<u64>, used: &Used, n: u64) -> Result<(), OutOfMemory>
    ensures { OnOk result ((i : ℕ) → mem numbers.new.items i
        ≡ (mem numbers.old.items i || ((n == i) && not (has used.now i)))) }
{
    let there = has_number(used, n)?;
    if there {
        return Ok(());
    }
    numbers.push(n)?;
    Ok(())
}

// So is the variable of a value.
fn push_variable(numbers: &mut Vec<u64>, used: &Used, v: &AValue) -> Result<(), OutOfMemory>
    ensures { OnOk result ((i : ℕ) → mem numbers.new.items i
        ≡ (mem numbers.old.items i || (uses (a_value v.now) i && not (has used.now i)))) }
{
    match v.base {
        ABase::Var(n) => Ok(push_missing(numbers, used, n)?),
        ABase::Int(_) => Ok(()),
        ABase::Label(_) => Ok(()),
        ABase::Data(_) => Ok(()),
    }
}

/// The variables of values that are not used are put at the end. An error is want of memory.
pub(crate) fn missing(
    numbers: &mut Vec<u64>,
    used: &Used,
    values: &[AValue],
) -> Result<(), OutOfMemory>
    ensures { OnOk result ((i : ℕ) → mem numbers.new.items i
        ≡ (mem numbers.old.items i || (uses_any (a_values values.now) i && not (has used.now i)))) }
{
    for v in values {
        push_variable(numbers, used, v)?;
    }
    Ok(())
}

/// Those of these variables that are not used are put at the end. An error is want of memory.
pub(crate) fn missing_of(
    numbers: &mut Vec<u64>,
    used: &Used,
    some: &[u64],
) -> Result<(), OutOfMemory>
    ensures { OnOk result ((i : ℕ) → mem numbers.new.items i
        ≡ (mem numbers.old.items i || (mem some.now i && not (has used.now i)))) }
{
    for i in 0..some.len() {
        push_missing(numbers, used, some[i])?;
    }
    Ok(())
}
