// What is still to be written.
ghost use Rattle.std.specs.Prelude.{◌≡◌, ◌<◌, ◌∷◌, [], OnOk, MatchOption};
ghost use Rattle.f_terms.specs.Tm.{plain};
ghost use Rattle.f_terms.specs.ReadTerm.{count, node_at};
ghost use Rattle.f_writer.specs.Tasks.{Write, Put, position_todo, todo, todos};

use crate::depths::Depths;
use crate::line::Line;
use crate::part::{Part, Parts};
use f_terms::FType;
use idx_core::OutOfMemory;

/// A part of a term where a line is asked for, and the names around it.
#[derive(Clone, Copy)]
pub(crate) struct Position<'a> {
    pub(crate) part: Part<'a>,
    pub(crate) line: Line,
    pub(crate) depths: Depths,
}

/// A term, fields after others, bytes, or a type inside so many type names.
#[derive(Drop)]
pub(crate) enum Task<'a> {
    Term(Position<'a>),
    Fields(Parts<'a>, Depths),
    Bytes(&'a [u8]),
    Type(&'a FType, u64),
}

// The child k of a part, where a line is asked for.
pub(crate) fn child<'a>(part: Part<'a>, k: u64, line: Line, depths: Depths) -> Position<'a>
    requires { k < count part.term.now }
    ensures { position_todo result ≡ Write line depths.types depths.values (plain (node_at part.entry.term.now k)) }
{
    let child = Part {
        term: part.term,
        at: k,
    };
    Position {
        part: child,
        line,
        depths,
    }
}

// One task more, to be done next.
pub(crate) fn push<'a>(tasks: &mut Vec<Task<'a>>, task: Task<'a>) -> Result<(), OutOfMemory>
    ensures { OnOk result (todos tasks.new.items ≡ todo task.entry ∷ todos tasks.old.items) }
{
    tasks.push(task)?;
    Ok(())
}

// Two parts with bytes between them, to be written next.
pub(crate) fn push_two<'a>(
    tasks: &mut Vec<Task<'a>>,
    left: Position<'a>,
    between: &'a [u8],
    right: Position<'a>,
) -> Result<(), OutOfMemory>
    ensures { OnOk result (todos tasks.new.items ≡
        position_todo left.entry ∷ Put between.entry.now ∷ position_todo right.entry ∷ todos tasks.old.items) }
{
    push(tasks, Task::Term(right))?;
    push(tasks, Task::Bytes(between))?;
    push(tasks, Task::Term(left))
}

// The next task.
pub(crate) fn pop<'a>(tasks: &mut Vec<Task<'a>>) -> Option<Task<'a>>
    ensures { MatchOption result
        (todos tasks.old.items ≡ [])
        (λ t. todos tasks.old.items ≡ todo t ∷ todos tasks.new.items) }
{
    tasks.pop()
}
