// What the forms of a term bind, by a loop over what is still to be done.
ghost use Rattle.std.specs.Prelude.{◌≡◌, ◌∷◌, map, IfOk, OnOk};
ghost use Rattle.f_terms.specs.Ty.{NoTys};
ghost use Rattle.f_terms.specs.ReadTerm.{spanned};
ghost use Rattle.types_page.specs.Walk.{AreReady, Checked, HasScope, Steps, binder_of, binders, left_fields, now};
ghost use Rattle.types_page.specs.Walk.{part_trees, start};
ghost use Rattle.types_page.specs.Walk.{todo, todos};

use crate::begin::visit;
use crate::bind::bind;
use crate::bound::Found;
use crate::join::{add, join};
use crate::part::Parts;
use crate::parts::{split, whole};
use crate::state::State;
use crate::task::Task;
use crate::tasks::{pop, push};
use f_terms::FTerm;
use idx_core::OutOfMemory;
use std::alloc::Global;

// Nothing is found yet.
fn first_state<'a>(alloc: Global) -> State<'a>
    ensures { now result ≡ start }
{
    State {
        found: Vec::new(alloc),
        scope: Vec::new(alloc),
        types: Vec::new(alloc),
        around: 0,
    }
}

// The next field of a tuple, whose type is then that of one field more.
fn next_field<'a>(tasks: &mut Vec<Task<'a>>, fields: Parts<'a>) -> Result<(), OutOfMemory>
    ensures { OnOk result (todos tasks.new.items ≡ left_fields (part_trees fields.entry) (todos tasks.old.items)) }
{
    match split(fields) {
        None => Ok(()),
        Some((field, others)) => {
            push(tasks, Task::Fields(others))?;
            push(tasks, Task::Add)?;
            push(tasks, Task::Visit(field))
        }
    }
}

// One task is done.
fn do_task<'a>(
    alloc: Global,
    state: &mut State<'a>,
    tasks: &mut Vec<Task<'a>>,
    task: Task<'a>,
) -> Result<(), OutOfMemory>
    requires scope { HasScope (now state.old) }
    requires ready { AreReady (todo task ∷ todos tasks.old.items) (now state.old) }
    ensures { OnOk result (Steps (todo task.entry ∷ todos tasks.old.items) (now state.old)
        (todos tasks.new.items) (now state.new)) }
{
    match task {
        Task::Visit(part) => visit(alloc, state, tasks, part),
        Task::Fields(fields) => next_field(tasks, fields),
        Task::Add => add(alloc, state),
        Task::Bind(part, number) => bind(alloc, state, part, number),
        Task::Join(part) => join(alloc, state, part),
    }
}

/// What the forms of a term bind, in the order of the text, with their types (own choice). Errors: want of memory.
pub(crate) fn binders_of<'a>(alloc: Global, term: &'a FTerm) -> Result<Vec<Found<'a>>, OutOfMemory>
    requires { Checked (spanned term.now) start }
    ensures { IfOk result (λ list. map binder_of list.items ≡ binders (spanned term.now) 0 NoTys) }
{
    let mut state = first_state(alloc);
    let mut tasks = Vec::new(alloc);
    push(&mut tasks, Task::Visit(whole(term)))?;
    while let Some(task) = pop(&mut tasks) {
        do_task(alloc, &mut state, &mut tasks, task)?;
    }
    Ok(state.found)
}
