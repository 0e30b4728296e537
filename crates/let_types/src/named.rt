// The names in scope, with their types.
ghost use Rattle.std.specs.Prelude.{◌≡◌, IfOk};
ghost use Rattle.calc_core.specs.Read.{tree, all_trees};
ghost use Rattle.calc_core.specs.Walks.{shift};
ghost use Rattle.k_terms.specs.Types.{kfield};
ghost use Rattle.let_types.specs.Names.{scope, shown};
ghost use Rattle.let_types.specs.Parts.{field_type, held_type, opened_type, type_at};

use crate::walks::shift_type;
use calc_core::CoreType;
use idx_core::OutOfMemory;
use std::alloc::Global;

/// A name's type, as it was when `types` type names were in scope. It is shifted where it is read.
#[derive(Drop)]
pub struct Named {
    pub ty: CoreType,
    pub types: u64,
}

/// The type of a name where `types` type names are in scope. An error is want of memory.
pub fn show(alloc: Global, name: &Named, types: u64) -> Result<CoreType, OutOfMemory>
    ensures { IfOk result (λ t. tree t ≡ shown types name.now) }
{
    let by = types.saturating_sub(name.types);
    let t = shift_type(alloc, &name.ty, by, 0)?;
    Ok(t)
}

/// The type of variable `i`, the innermost first. An error is want of memory.
pub fn variable(alloc: Global, names: &[Named], types: u64, i: u64) -> Result<CoreType, OutOfMemory>
    ensures { IfOk result (λ t. tree t ≡ type_at (scope types names.now) i) }
{
    let count = names.len();
    if i < count as u64 {
        let t = show(alloc, &names[count - 1 - i as usize], types)?;
        Ok(t)
    } else {
        Ok(CoreType::Int)
    }
}

// Field `i` of these, from 1 on, under `by` more type names.
fn field_among(alloc: Global, fields: &[CoreType], i: u64, by: u64) -> Result<CoreType, OutOfMemory>
    ensures { IfOk result (λ r. tree r ≡ shift by 0 (kfield i (all_trees fields.now))) }
{
    if i == 0 {
        return Ok(CoreType::Int);
    }
    if i - 1 < fields.len() as u64 {
        let made = shift_type(alloc, &fields[(i - 1) as usize], by, 0)?;
        return Ok(made);
    }
    Ok(CoreType::Int)
}

/// The type of field `i` of a name. Nothing but that is copied, so that many projections of one tuple cost no more than
/// its fields. An error is want of memory.
pub fn field_of_name(
    alloc: Global,
    name: &Named,
    types: u64,
    i: u64,
) -> Result<CoreType, OutOfMemory>
    ensures { IfOk result (λ r. tree r ≡ field_type i (shown types name.now)) }
{
    let by = types.saturating_sub(name.types);
    match &name.ty {
        CoreType::Tuple(fields) => {
            let made = field_among(alloc, fields, i, by)?;
            Ok(made)
        }
        _ => Ok(CoreType::Int),
    }
}

/// The type of what a name that is a package holds, under its type name too. An error is want of memory.
pub fn opened_of_name(alloc: Global, name: &Named, types: u64) -> Result<CoreType, OutOfMemory>
    ensures { IfOk result (λ r. tree r ≡ opened_type (shown types name.now)) }
{
    let by = types.saturating_sub(name.types);
    match &name.ty {
        CoreType::Exists(t) => {
            let made = shift_type(alloc, t, by, 1)?;
            Ok(made)
        }
        _ => Ok(CoreType::Int),
    }
}

/// The type of what a name that is a cell holds. An error is want of memory.
pub fn held_of_name(alloc: Global, name: &Named, types: u64) -> Result<CoreType, OutOfMemory>
    ensures { IfOk result (λ r. tree r ≡ held_type (shown types name.now)) }
{
    let by = types.saturating_sub(name.types);
    match &name.ty {
        CoreType::Ref(t) => {
            let made = shift_type(alloc, t, by, 0)?;
            Ok(made)
        }
        _ => Ok(CoreType::Int),
    }
}
