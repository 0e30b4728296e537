// Types made of types: of a field, of a tuple with a field filled, of a new tuple, of what a package hides.
ghost use Rattle.std.specs.Prelude.{◌≡◌, ℕ, IfOk};
ghost use Rattle.t_types.specs.Tree.{TupleTy};
ghost use Rattle.t_types.specs.Fields.{field, filled, empty_fields};
ghost use Rattle.t_types.specs.Fits.{lookup};
ghost use Rattle.t_types.specs.Read.{tree, file, fields, types as type_trees};
ghost use Rattle.t_spill_rules.specs.Spill.{or_int, type_in, field_type, filled_type, hidden_type};

use idx_core::OutOfMemory;
use std::alloc::Global;
use t_types::{TType, copy, find};

// The type of a field; `Int` where there is none.
fn field_at(alloc: Global, fs: &[(TType, bool)], i: u64) -> Result<TType, OutOfMemory>
    ensures { IfOk result (λ t. tree t ≡ type_in (field (fields fs.now) i)) }
{
    if i < fs.len() as u64 {
        copy(alloc, &fs[i as usize].0)
    } else {
        Ok(TType::Int)
    }
}

fn field_of(alloc: Global, t: &TType, i: u64) -> Result<TType, OutOfMemory>
    ensures { IfOk result (λ r. tree r ≡ field_type (tree t.now) i) }
{
    match t {
        TType::Tuple(fs) => field_at(alloc, fs, i),
        TType::Int | TType::Var(_) | TType::Exists(_) | TType::Code { .. } => Ok(TType::Int),
    }
}

/// The type of a field of the tuple in a register; `Int` where there is none.
pub fn loaded(alloc: Global, regs: &[(u64, TType)], r: u64, i: u64) -> Result<TType, OutOfMemory>
    ensures { IfOk result (λ t. tree t ≡ field_type (or_int (lookup (file regs.now) r)) i) }
{
    match find(regs, r) {
        Some(t) => field_of(alloc, t, i),
        None => Ok(TType::Int),
    }
}

// The fields, with field i filled.
fn fill_field(
    alloc: Global,
    fs: &[(TType, bool)],
    i: u64,
) -> Result<Vec<(TType, bool)>, OutOfMemory>
    ensures { IfOk result (λ r. fields r.items ≡ filled (fields fs.now) i) }
{
    let mut made = Vec::new(alloc);
    for j in 0..fs.len() {
        let t = copy(alloc, &fs[j].0)?;
        let flag = fs[j].1 || j as u64 == i;
        made.push((t, flag))?;
    }
    Ok(made)
}

fn filled_of(alloc: Global, t: &TType, i: u64) -> Result<TType, OutOfMemory>
    ensures { IfOk result (λ r. tree r ≡ filled_type (tree t.now) i) }
{
    match t {
        TType::Tuple(fs) => {
            let fs = fill_field(alloc, fs, i)?;
            Ok(TType::Tuple(fs))
        }
        TType::Int | TType::Var(_) | TType::Exists(_) | TType::Code { .. } => Ok(TType::Int),
    }
}

/// The type of the tuple in a register, with a field filled; `Int` where there is none.
pub fn stored(alloc: Global, regs: &[(u64, TType)], r: u64, i: u64) -> Result<TType, OutOfMemory>
    ensures { IfOk result (λ t. tree t ≡ filled_type (or_int (lookup (file regs.now) r)) i) }
{
    match find(regs, r) {
        Some(t) => filled_of(alloc, t, i),
        None => Ok(TType::Int),
    }
}

fn unfilled(alloc: Global, types: &[TType]) -> Result<Vec<(TType, bool)>, OutOfMemory>
    ensures { IfOk result (λ r. fields r.items ≡ empty_fields (type_trees types.now)) }
{
    let mut made = Vec::new(alloc);
    for t in types {
        let t = copy(alloc, t)?;
        made.push((t, false))?;
    }
    Ok(made)
}

/// The type of a new tuple.
pub fn new_tuple(alloc: Global, types: &[TType]) -> Result<TType, OutOfMemory>
    ensures { IfOk result (λ r. tree r ≡ TupleTy (empty_fields (type_trees types.now))) }
{
    let fields = unfilled(alloc, types)?;
    Ok(TType::Tuple(fields))
}

/// The type under the binder of a package's type; `Int` where it is none.
pub fn hidden(alloc: Global, t: &TType) -> Result<TType, OutOfMemory>
    ensures { IfOk result (λ r. tree r ≡ hidden_type (tree t.now)) }
{
    match t {
        TType::Exists(body) => copy(alloc, body),
        TType::Int | TType::Var(_) | TType::Tuple(_) | TType::Code { .. } => Ok(TType::Int),
    }
}
