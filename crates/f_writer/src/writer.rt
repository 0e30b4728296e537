// The text of a term, by a loop over what is still to be written.
ghost use Rattle.std.specs.Prelude.{◌≡◌, ◌∷◌, OnOk, IfOk};
ghost use Rattle.f_terms.specs.ReadTerm.{term_of};
ghost use Rattle.f_writer.specs.Notation.{term_text};
ghost use Rattle.f_writer.specs.Parts.{part_terms};
ghost use Rattle.f_writer.specs.Tasks.{todo, todos, Steps, WriteAll};

use crate::begin::begin;
use crate::depths::Depths;
use crate::line::Line;
use crate::part::Parts;
use crate::parts::{split, whole};
use crate::task::{Position, Task, pop, push};
use crate::types::write_type;
use f_terms::FTerm;
use idx_core::OutOfMemory;
use std::alloc::Global;

// The next of fields that stand after others.
fn next_field<'a>(
    text: &mut Vec<u8>,
    tasks: &mut Vec<Task<'a>>,
    fields: Parts<'a>,
    depths: Depths,
) -> Result<(), OutOfMemory>
    ensures { OnOk result (Steps text.old.items
        (WriteAll depths.types depths.values (part_terms fields.entry) ∷ todos tasks.old.items)
        text.new.items (todos tasks.new.items)) }
{
    match split(fields) {
        None => Ok(()),
        Some((part, rest)) => {
            text.extend_from_slice(b", ")?;
            push(tasks, Task::Fields(rest, depths))?;
            let line = Line::Expression;
            push(tasks, Task::Term(Position { part, line, depths }))
        }
    }
}

// One task is done.
fn do_task<'a>(
    text: &mut Vec<u8>,
    tasks: &mut Vec<Task<'a>>,
    task: Task<'a>,
) -> Result<(), OutOfMemory>
    ensures { OnOk result (Steps text.old.items (todo task.entry ∷ todos tasks.old.items)
        text.new.items (todos tasks.new.items)) }
{
    match task {
        Task::Term(term) => begin(text, tasks, term),
        Task::Fields(fields, depths) => next_field(text, tasks, fields, depths),
        Task::Bytes(bytes) => {
            text.extend_from_slice(bytes)?;
            Ok(())
        }
        Task::Type(ty, depth) => write_type(text, ty, depth),
    }
}

/// The canonical text of a term (own choice): one for each term, places aside. Where the term is closed, its integers
/// and field numbers are such as a source has, and 64 bits hold the number of the names around each form, the text
/// stands for the term (law `texts_stand_for_their_terms`). It takes time by its length, however deep the term nests.
/// Errors: want of memory.
pub fn write_term(alloc: Global, term: &FTerm) -> Result<Vec<u8>, OutOfMemory>
    ensures is { IfOk result (λ text. text.items ≡ term_text (term_of term.now)) }
{
    let mut text = Vec::new(alloc);
    let mut tasks = Vec::new(alloc);
    push(&mut tasks, Task::Bytes(b"\n"))?;
    let depths = Depths {
        types: 0,
        values: 0,
    };
    let line = Line::Expression;
    let part = whole(term);
    push(&mut tasks, Task::Term(Position { part, line, depths }))?;
    while let Some(task) = pop(&mut tasks) {
        do_task(&mut text, &mut tasks, task)?;
    }
    Ok(text)
}
