// The first step of a term: what stands before its parts is written, and they are to be written after it.
ghost use Rattle.std.specs.Prelude.{◌≡◌, ◌≤◌, ◌+◌, ◌++◌, ◌∷◌, ℕ, List, OnOk};
ghost use Rattle.f_writer.specs.Notation.{wrapped};
ghost use Rattle.f_writer.specs.Parts.{part_term, part_terms};
ghost use Rattle.f_writer.specs.Tasks.{todos, all_done, steps, Begun, IsTyped, Opened, Steps, position_todo};

use crate::binders::begin_binder;
use crate::depths::Depths;
use crate::joined::begin_joined;
use crate::line::{Line, is_loose, line_of};
use crate::names::write_value_name;
use crate::number::{write_integer, write_natural};
use crate::part::{Part, Parts};
use crate::parts::{children, node, split};
use crate::task::{Position, Task, child, push};
use crate::types::write_type;
use f_terms::FShape;
use idx_core::OutOfMemory;

// A use at a type, or a package.
fn begin_typed<'a>(
    text: &mut Vec<u8>,
    tasks: &mut Vec<Task<'a>>,
    part: Part<'a>,
    depths: Depths,
) -> Result<(), OutOfMemory>
    requires { IsTyped (part_term part) }
    ensures { OnOk result (Begun text.old.items depths.types depths.values (part_term part.entry)
        (todos tasks.old.items) text.new.items (todos tasks.new.items)) }
{
    match &node(part).shape {
        FShape::Inst(e, ty) => {
            push(tasks, Task::Bytes(b"]"))?;
            push(tasks, Task::Type(ty, depths.types))?;
            push(tasks, Task::Bytes(b"["))?;
            push(tasks, Task::Term(child(part, *e, Line::Call, depths)))
        }
        FShape::Pack {
            hidden,
            inner,
            shape,
        } => {
            text.extend_from_slice(b"pack[")?;
            write_type(text, hidden, depths.types)?;
            text.extend_from_slice(b", ")?;
            push(tasks, Task::Type(shape, depths.types))?;
            push(tasks, Task::Bytes(b"] as "))?;
            push(
                tasks,
                Task::Term(child(part, *inner, Line::Expression, depths)),
            )
        }
        _ => unreachable!(),
    }
}

// Fields between angle brackets, of which the opening one is written.
fn begin_tuple<'a>(
    tasks: &mut Vec<Task<'a>>,
    fields: Parts<'a>,
    depths: Depths,
) -> Result<(), OutOfMemory>
    ensures { OnOk result (Opened depths.types depths.values (part_terms fields.entry)
        (todos tasks.old.items) (todos tasks.new.items)) }
{
    push(tasks, Task::Bytes(b">"))?;
    match split(fields) {
        None => Ok(()),
        Some((part, rest)) => {
            push(tasks, Task::Fields(rest, depths))?;
            let line = Line::Expression;
            push(tasks, Task::Term(Position { part, line, depths }))
        }
    }
}

// A form, whose opening parenthesis is written.
fn begin_form<'a>(
    text: &mut Vec<u8>,
    tasks: &mut Vec<Task<'a>>,
    part: Part<'a>,
    depths: Depths,
) -> Result<(), OutOfMemory>
    ensures { OnOk result (Begun text.old.items depths.types depths.values (part_term part.entry)
        (todos tasks.old.items) text.new.items (todos tasks.new.items)) }
{
    match &node(part).shape {
        FShape::Var(i) => {
            let level = depths.values.saturating_sub(1).saturating_sub(*i);
            write_value_name(text, level)
        }
        FShape::Int(value) => write_integer(text, *value),
        FShape::Tuple(fields) => {
            text.extend_from_slice(b"<")?;
            begin_tuple(tasks, children(part, fields), depths)
        }
        FShape::Proj(i, e) => {
            text.extend_from_slice(b"#")?;
            write_natural(text, *i)?;
            text.extend_from_slice(b" ")?;
            push(tasks, Task::Term(child(part, *e, Line::Primary, depths)))
        }
        FShape::Ref(e) => {
            text.extend_from_slice(b"ref ")?;
            push(tasks, Task::Term(child(part, *e, Line::Primary, depths)))
        }
        FShape::Deref(e) => {
            text.extend_from_slice(b"!")?;
            push(tasks, Task::Term(child(part, *e, Line::Primary, depths)))
        }
        FShape::Inst(..) | FShape::Pack { .. } => begin_typed(text, tasks, part, depths),
        FShape::Fix { .. } | FShape::Gen(..) | FShape::Let(..) | FShape::Open(..) => {
            begin_binder(text, tasks, part, depths)
        }
        _ => begin_joined(text, tasks, part, depths),
    }
}

// The opening parenthesis where one is needed, and the closing one after what is written next.
fn wrap<'a>(text: &mut Vec<u8>, tasks: &mut Vec<Task<'a>>, loose: bool) -> Result<(), OutOfMemory>
    ensures written { OnOk result ((s : List ℕ) → text.new.items ++ (s ++ all_done (todos tasks.new.items)) ≡
        text.old.items ++ (wrapped loose s ++ all_done (todos tasks.old.items))) }
    ensures few { OnOk result (steps (todos tasks.new.items) ≤ 1 + steps (todos tasks.old.items)) }
{
    if loose {
        text.extend_from_slice(b"(")?;
        push(tasks, Task::Bytes(b")"))?;
    }
    Ok(())
}

/// The first step of a term where a line is asked for.
pub(crate) fn begin<'a>(
    text: &mut Vec<u8>,
    tasks: &mut Vec<Task<'a>>,
    term: Position<'a>,
) -> Result<(), OutOfMemory>
    ensures { OnOk result (Steps text.old.items (position_todo term.entry ∷ todos tasks.old.items)
        text.new.items (todos tasks.new.items)) }
{
    let loose = is_loose(line_of(&node(term.part).shape), term.line);
    wrap(text, tasks, loose)?;
    begin_form(text, tasks, term.part, term.depths)
}
