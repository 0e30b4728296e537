// All parts of a form are done.
ghost use Rattle.std.specs.Prelude.{◌≡◌, ◌∷◌, OnOk};
ghost use Rattle.f_terms.specs.Ty.{TInt, TAll, TTuple, TRef, PutFits, put};
ghost use Rattle.f_terms.specs.Typing.{field_ty};
ghost use Rattle.f_terms.specs.Noted.{or_int, result_of, body_of, fields_of, held_of, outside};
ghost use Rattle.f_terms.specs.Read.{tree};
ghost use Rattle.types_page.specs.Walk.{HasRoom, added, back, first, join, now, part_tree, rest, with_field};

use crate::part::Part;
use crate::parts::node;
use crate::stacks::{pop_name, pop_type, push_type};
use crate::state::State;
use crate::types::{
    all, arrow, body_of, cell, field_of, held_of, more_fields, outside, result_of, unit,
};
use f_terms::{FShape, FType, copy};
use idx_core::{OutOfMemory, Scoped};
use std::alloc::Global;

// A type stands for the last one.
fn instead(types: &mut Vec<FType>, ty: FType) -> Result<(), OutOfMemory>
    ensures { OnOk result (back tree types.new.items ≡ tree ty ∷ rest (back tree types.old.items)) }
{
    let _ = pop_type(types);
    push_type(types, ty)
}

// A type stands for the last two.
fn instead_of_two(types: &mut Vec<FType>, ty: FType) -> Result<(), OutOfMemory>
    ensures { OnOk result (back tree types.new.items ≡ tree ty ∷ rest (rest (back tree types.old.items))) }
{
    let _ = pop_type(types);
    instead(types, ty)
}

fn join_app(types: &mut Vec<FType>) -> Result<(), OutOfMemory>
    ensures { OnOk result (back tree types.new.items
        ≡ result_of (first (rest (back tree types.old.items))) ∷ rest (rest (back tree types.old.items))) }
{
    let _ = pop_type(types);
    let function = pop_type(types);
    push_type(types, result_of(function))
}

fn join_if(types: &mut Vec<FType>) -> Result<(), OutOfMemory>
    ensures { OnOk result (back tree types.new.items
        ≡ first (rest (back tree types.old.items)) ∷ rest (rest (rest (back tree types.old.items)))) }
{
    let _ = pop_type(types);
    let zero = pop_type(types);
    instead(types, zero)
}

fn join_inst(alloc: Global, types: &mut Vec<FType>, what: &FType) -> Result<(), OutOfMemory>
    requires { PutFits 0 (tree what.now) 0 (body_of (first (back tree types.old.items))) }
    ensures { OnOk result (back tree types.new.items
        ≡ put 0 (tree what.now) (body_of (first (back tree types.old.items))) ∷ rest (back tree types.old.items)) }
{
    let body = body_of(pop_type(types));
    push_type(types, body.put(alloc, 0, what)?)
}

fn join_proj(alloc: Global, types: &mut Vec<FType>, i: u64) -> Result<(), OutOfMemory>
    ensures { OnOk result (back tree types.new.items
        ≡ or_int (field_ty (fields_of (first (back tree types.old.items))) i) ∷ rest (back tree types.old.items)) }
{
    let tuple = pop_type(types);
    push_type(types, field_of(alloc, tuple, i))
}

fn join_gen(alloc: Global, types: &mut Vec<FType>) -> Result<(), OutOfMemory>
    ensures { OnOk result (back tree types.new.items
        ≡ TAll (first (back tree types.old.items)) ∷ rest (back tree types.old.items)) }
{
    let body = pop_type(types);
    push_type(types, all(alloc, body)?)
}

fn join_open(alloc: Global, types: &mut Vec<FType>) -> Result<(), OutOfMemory>
    requires { PutFits 0 TInt 0 (first (back tree types.old.items)) }
    ensures { OnOk result (back tree types.new.items
        ≡ outside (first (back tree types.old.items)) ∷ rest (back tree types.old.items)) }
{
    let inner = pop_type(types);
    push_type(types, outside(alloc, &inner)?)
}

fn join_ref(alloc: Global, types: &mut Vec<FType>) -> Result<(), OutOfMemory>
    ensures { OnOk result (back tree types.new.items
        ≡ TRef (first (back tree types.old.items)) ∷ rest (back tree types.old.items)) }
{
    let held = pop_type(types);
    push_type(types, cell(alloc, held)?)
}

fn join_deref(types: &mut Vec<FType>) -> Result<(), OutOfMemory>
    ensures { OnOk result (back tree types.new.items
        ≡ held_of (first (back tree types.old.items)) ∷ rest (back tree types.old.items)) }
{
    let cell = pop_type(types);
    push_type(types, held_of(cell))
}

fn join_field(alloc: Global, types: &mut Vec<FType>) -> Result<(), OutOfMemory>
    ensures { OnOk result (back tree types.new.items
        ≡ TTuple (with_field (fields_of (first (rest (back tree types.old.items)))) (first (back tree types.old.items)))
        ∷ rest (rest (back tree types.old.items))) }
{
    let ty = pop_type(types);
    let tuple = pop_type(types);
    let more = more_fields(alloc, tuple, ty)?;
    push_type(types, more)
}

/// The last type is that of one more field of the tuple whose type is the one before.
pub(crate) fn add(alloc: Global, state: &mut State) -> Result<(), OutOfMemory>
    ensures { OnOk result (now state.new ≡ added (now state.old)) }
{
    join_field(alloc, &mut state.types)
}

/// The form's type stands for those of its parts, and what it has bound is left.
pub(crate) fn join<'a>(
    alloc: Global,
    state: &mut State<'a>,
    part: Part<'a>,
) -> Result<(), OutOfMemory>
    requires { HasRoom (part_tree part) (now state.old) }
    ensures { OnOk result (now state.new ≡ join (part_tree part.entry) (now state.old)) }
{
    match &node(part).shape {
        FShape::Var(_) | FShape::Int(_) | FShape::Tuple(_) => Ok(()),
        FShape::Fix { arg, res, .. } => {
            pop_name(&mut state.scope);
            pop_name(&mut state.scope);
            instead(&mut state.types, arrow(alloc, arg, res)?)
        }
        FShape::Gen(_) => {
            state.around = state.around.saturating_sub(1);
            join_gen(alloc, &mut state.types)
        }
        FShape::Let(_, _) => {
            pop_name(&mut state.scope);
            Ok(())
        }
        FShape::Open(_, _) => {
            pop_name(&mut state.scope);
            state.around = state.around.saturating_sub(1);
            join_open(alloc, &mut state.types)
        }
        FShape::App(_, _) => join_app(&mut state.types),
        FShape::Inst(_, what) => join_inst(alloc, &mut state.types, what),
        FShape::Proj(i, _) => join_proj(alloc, &mut state.types, *i),
        FShape::Arith(_, _, _) => instead_of_two(&mut state.types, FType::Int),
        FShape::If0(_, _, _) => join_if(&mut state.types),
        FShape::Pack { shape, .. } => instead(&mut state.types, copy(alloc, shape)?),
        FShape::Ref(_) => join_ref(alloc, &mut state.types),
        FShape::Deref(_) => join_deref(&mut state.types),
        FShape::Assign(_, _) => instead_of_two(&mut state.types, unit(alloc)),
    }
}
