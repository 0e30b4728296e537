// The stacks of a state.
ghost use Rattle.std.specs.Prelude.{◌≡◌, ◌≤◌, ◌++◌, ◌∷◌, [], map, slice_set, IfOk, OnOk};
ghost use Rattle.f_terms.specs.Typing.{ty_at};
ghost use Rattle.f_terms.specs.Noted.{or_int};
ghost use Rattle.f_terms.specs.Read.{tree};
ghost use Rattle.types_page.specs.Walk.{IsScope, back, context, binder_of, first, kind, named, rest};

use crate::bound::{Bound, Found};
use crate::state::Name;
use f_terms::FType;
use idx_core::{OutOfMemory, Scoped};
use std::alloc::Global;

pub(crate) fn push_type(types: &mut Vec<FType>, ty: FType) -> Result<(), OutOfMemory>
    ensures { OnOk result (back tree types.new.items ≡ tree ty ∷ back tree types.old.items) }
{
    types.push(ty)?;
    Ok(())
}

// The last type, or `int`.
pub(crate) fn pop_type(types: &mut Vec<FType>) -> FType
    ensures last { tree result ≡ first (back tree types.old.items) }
    ensures others { back tree types.new.items ≡ rest (back tree types.old.items) }
{
    match types.pop() {
        Some(ty) => ty,
        None => FType::Int,
    }
}

pub(crate) fn push_name(scope: &mut Vec<Name>, ty: FType, around: u64) -> Result<(), OutOfMemory>
    ensures { OnOk result (back named scope.new.items
        ≡ record { ty = tree ty; at = around } ∷ back named scope.old.items) }
{
    scope.push(Name { ty, around })?;
    Ok(())
}

pub(crate) fn pop_name(scope: &mut Vec<Name>)
    ensures { back named scope.new.items ≡ rest (back named scope.old.items) }
{
    let _ = scope.pop();
}

// One binder more.
pub(crate) fn push_found<'a>(
    list: &mut Vec<Found<'a>>,
    at: u64,
    names: u64,
    bound: Bound<'a>,
) -> Result<(), OutOfMemory>
    requires { names ≤ 4294967296 }
    ensures { OnOk result (map binder_of list.new.items
        ≡ map binder_of list.old.items ++ record { at = at; names = names; kind = kind bound.entry } ∷ []) }
{
    list.push(Found { at, names, bound })?;
    Ok(())
}

// The binder of this number becomes another.
#[tactic(auto, using(crate::proofs::Stacking::set_facts))]
pub(crate) fn set_found<'a>(list: &mut Vec<Found<'a>>, number: usize, to: Found<'a>)
    ensures { map binder_of list.new.items ≡ slice_set (map binder_of list.old.items) number (binder_of to.entry) }
{
    if number < list.len() {
        list[number] = to;
    }
}

// The type of a value name as it stands under so many type names, or `int` where there is no such name.
pub(crate) fn type_of_name(
    alloc: Global,
    scope: &[Name],
    name: u64,
    around: u64,
) -> Result<FType, OutOfMemory>
    requires room { around ≤ 4294967296 }
    requires scope { IsScope around (back named scope.now) }
    ensures { IfOk result (λ r. tree r ≡ or_int (ty_at (context around (back named scope.now)) name)) }
{
    let count = scope.len() as u64;
    if name >= count {
        return Ok(FType::Int);
    }
    let place = (count - 1 - name) as usize;
    let found = &scope[place];
    let by = around.saturating_sub(found.around);
    found.ty.shift(alloc, by, 0)
}
