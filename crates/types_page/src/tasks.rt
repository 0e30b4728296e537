// The stack of what is still to be done.
ghost use Rattle.std.specs.Prelude.{◌≡◌, ◌<◌, ◌∷◌, [], OnOk, MatchOption};
ghost use Rattle.f_terms.specs.ReadTerm.{count, node_at};
ghost use Rattle.types_page.specs.Walk.{Visit, Join, Bind, part_tree, todo, todos};

use crate::part::Part;
use crate::parts::child;
use crate::task::Task;
use idx_core::OutOfMemory;

// One task more, to be done next.
pub(crate) fn push<'a>(tasks: &mut Vec<Task<'a>>, task: Task<'a>) -> Result<(), OutOfMemory>
    ensures { OnOk result (todos tasks.new.items ≡ todo task.entry ∷ todos tasks.old.items) }
{
    tasks.push(task)?;
    Ok(())
}

// The next task.
pub(crate) fn pop<'a>(tasks: &mut Vec<Task<'a>>) -> Option<Task<'a>>
    ensures { MatchOption result
        (todos tasks.old.items ≡ [])
        (λ t. todos tasks.old.items ≡ todo t ∷ todos tasks.new.items) }
{
    tasks.pop()
}

// A form of one part.
pub(crate) fn push_one<'a>(
    tasks: &mut Vec<Task<'a>>,
    form: Part<'a>,
    a: u64,
) -> Result<(), OutOfMemory>
    requires { a < count form.term.now }
    ensures { OnOk result (todos tasks.new.items ≡
        Visit (node_at form.entry.term.now a) ∷ Join (part_tree form.entry) ∷ todos tasks.old.items) }
{
    push(tasks, Task::Join(form))?;
    push(tasks, Task::Visit(child(form, a)))
}

// A form of two parts.
pub(crate) fn push_two<'a>(
    tasks: &mut Vec<Task<'a>>,
    form: Part<'a>,
    a: u64,
    b: u64,
) -> Result<(), OutOfMemory>
    requires first { a < count form.term.now }
    requires second { b < count form.term.now }
    ensures { OnOk result (todos tasks.new.items ≡
        Visit (node_at form.entry.term.now a) ∷ Visit (node_at form.entry.term.now b) ∷ Join (part_tree form.entry)
        ∷ todos tasks.old.items) }
{
    push(tasks, Task::Join(form))?;
    push(tasks, Task::Visit(child(form, b)))?;
    push(tasks, Task::Visit(child(form, a)))
}

// A `let` or an `open`, whose binder has this number.
pub(crate) fn push_binding<'a>(
    tasks: &mut Vec<Task<'a>>,
    form: Part<'a>,
    number: usize,
    a: u64,
    b: u64,
) -> Result<(), OutOfMemory>
    requires first { a < count form.term.now }
    requires second { b < count form.term.now }
    ensures { OnOk result (todos tasks.new.items ≡
        Visit (node_at form.entry.term.now a) ∷ Bind (part_tree form.entry) number
        ∷ Visit (node_at form.entry.term.now b) ∷ Join (part_tree form.entry) ∷ todos tasks.old.items) }
{
    push(tasks, Task::Join(form))?;
    push(tasks, Task::Visit(child(form, b)))?;
    push(tasks, Task::Bind(form, number))?;
    push(tasks, Task::Visit(child(form, a)))
}
