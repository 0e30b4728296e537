// The first step of a form.
ghost use Rattle.std.specs.Prelude.{◌≡◌, ◌≤◌, OnOk, length};
ghost use Rattle.f_terms.specs.Read.{tree};
ghost use Rattle.types_page.specs.Walk.{Checked, HasScope, begun, begun_fix, left, now, part_tree, todos};

use crate::bound::Bound;
use crate::part::Part;
use crate::parts::{child, children, node};
use crate::stacks::{push_found, push_name, push_type, type_of_name};
use crate::state::State;
use crate::task::Task;
use crate::tasks::{push, push_binding, push_one, push_two};
use crate::types::{arrow, unit};
use f_terms::{FShape, FType, copy};
use idx_core::OutOfMemory;
use std::alloc::Global;

// A function is found, and its names are in scope: its own and, inside of it, its argument's.
fn begin_fix<'a>(
    alloc: Global,
    state: &mut State<'a>,
    at: u64,
    arg: &'a FType,
    res: &'a FType,
) -> Result<(), OutOfMemory>
    requires { state.old.around ≤ 4294967296 }
    ensures { OnOk result (now state.new ≡ begun_fix at (tree arg.now) (tree res.now) (now state.old)) }
{
    let around = state.around;
    push_found(&mut state.found, at, around, Bound::Function(arg, res))?;
    push_name(&mut state.scope, arrow(alloc, arg, res)?, around)?;
    push_name(&mut state.scope, copy(alloc, arg)?, around)
}

// What a form does at once.
fn begin<'a>(alloc: Global, state: &mut State<'a>, part: Part<'a>) -> Result<(), OutOfMemory>
    requires scope { HasScope (now state.old) }
    requires checked { Checked (part_tree part) (now state.old) }
    ensures { OnOk result (now state.new ≡ begun (part_tree part.entry) (now state.old)) }
{
    let node = node(part);
    let at = node.span.start;
    let around = state.around;
    match &node.shape {
        FShape::Var(i) => {
            let ty = type_of_name(alloc, &state.scope, *i, around)?;
            push_type(&mut state.types, ty)
        }
        FShape::Int(_) => push_type(&mut state.types, FType::Int),
        FShape::Fix { arg, res, .. } => begin_fix(alloc, state, at, arg, res),
        FShape::Gen(_) => {
            push_found(&mut state.found, at, around, Bound::TypeName)?;
            state.around = around + 1;
            Ok(())
        }
        FShape::Tuple(_) => push_type(&mut state.types, unit(alloc)),
        FShape::Let(_, _) => push_found(&mut state.found, at, around, Bound::Value(FType::Int)),
        FShape::Open(_, _) => push_found(&mut state.found, at, around, Bound::Opened(FType::Int)),
        _ => Ok(()),
    }
}

// What a form leaves to be done, where so many binders were found before.
fn leave<'a>(tasks: &mut Vec<Task<'a>>, part: Part<'a>, number: usize) -> Result<(), OutOfMemory>
    ensures { OnOk result (todos tasks.new.items ≡ left (part_tree part.entry) number (todos tasks.old.items)) }
{
    match &node(part).shape {
        FShape::Var(_) | FShape::Int(_) => Ok(()),
        FShape::Tuple(es) => push(tasks, Task::Fields(children(part, es))),
        FShape::Let(a, b) | FShape::Open(a, b) => push_binding(tasks, part, number, *a, *b),
        FShape::Fix { body: a, .. } | FShape::Gen(a) => push_one(tasks, part, *a),
        FShape::Inst(a, _) | FShape::Proj(_, a) => push_one(tasks, part, *a),
        FShape::Pack { inner: a, .. } | FShape::Ref(a) | FShape::Deref(a) => push_one(
            tasks, part, *a,
        ),
        FShape::App(a, b) | FShape::Arith(_, a, b) => push_two(tasks, part, *a, *b),
        FShape::Assign(a, b) => push_two(tasks, part, *a, *b),
        FShape::If0(c, a, b) => {
            push_two(tasks, part, *a, *b)?;
            push(tasks, Task::Visit(child(part, *c)))
        }
    }
}

/// The first step of a term.
pub(crate) fn visit<'a>(
    alloc: Global,
    state: &mut State<'a>,
    tasks: &mut Vec<Task<'a>>,
    part: Part<'a>,
) -> Result<(), OutOfMemory>
    requires scope { HasScope (now state.old) }
    requires checked { Checked (part_tree part) (now state.old) }
    ensures { OnOk result ((now state.new ≡ begun (part_tree part.entry) (now state.old))
        × (todos tasks.new.items
        ≡ left (part_tree part.entry) (length (now state.old).found) (todos tasks.old.items))) }
{
    let number = state.found.len();
    begin(alloc, state, part)?;
    leave(tasks, part, number)
}
