// The first step of a form that binds names: its head is written, and its parts are to be written after it.
ghost use Rattle.std.specs.Prelude.{◌≡◌, ◌+◌, ◌++◌, codes, OnOk};
ghost use Rattle.f_terms.specs.Text.{name_text, text_at};
ghost use Rattle.f_terms.specs.Read.{tree};
ghost use Rattle.f_writer.specs.Notation.{value_text};
ghost use Rattle.f_writer.specs.Parts.{part_term};
ghost use Rattle.f_writer.specs.Tasks.{todos, Begun, IsBinder};

use crate::depths::{Depths, with_more};
use crate::line::Line;
use crate::names::{write_type_name, write_value_name};
use crate::part::Part;
use crate::parts::node;
use crate::task::{Task, child, push, push_two};
use crate::types::write_type;
use f_terms::{FShape, FType};
use idx_core::OutOfMemory;

// What stands before the body of a function that binds two names more than these.
fn write_head(
    text: &mut Vec<u8>,
    depths: Depths,
    inner: Depths,
    arg: &FType,
    res: &FType,
) -> Result<(), OutOfMemory>
    requires { inner.values ≡ depths.values + 2 }
    ensures { OnOk result (text.new.items ≡
        text.old.items ++ (codes "fix " ++ value_text depths.values ++ codes "(" ++ value_text (depths.values + 1)
        ++ codes ": " ++ text_at depths.types (tree arg.now) ++ codes "): " ++ text_at depths.types (tree res.now)
        ++ codes ". ")) }
{
    text.extend_from_slice(b"fix ")?;
    write_value_name(text, depths.values)?;
    text.extend_from_slice(b"(")?;
    write_value_name(text, inner.values - 1)?;
    text.extend_from_slice(b": ")?;
    write_type(text, arg, depths.types)?;
    text.extend_from_slice(b"): ")?;
    write_type(text, res, depths.types)?;
    text.extend_from_slice(b". ")?;
    Ok(())
}

// What stands before the first part of an `open`.
fn write_opening(text: &mut Vec<u8>, depths: Depths) -> Result<(), OutOfMemory>
    ensures { OnOk result (text.new.items ≡
        text.old.items ++ (codes "open [" ++ name_text depths.types ++ codes ", " ++ value_text depths.values
        ++ codes "] = ")) }
{
    text.extend_from_slice(b"open [")?;
    write_type_name(text, depths.types)?;
    text.extend_from_slice(b", ")?;
    write_value_name(text, depths.values)?;
    text.extend_from_slice(b"] = ")?;
    Ok(())
}

/// The first step of a `fix`, a `gen`, a `let` or an `open`.
pub(crate) fn begin_binder<'a>(
    text: &mut Vec<u8>,
    tasks: &mut Vec<Task<'a>>,
    part: Part<'a>,
    depths: Depths,
) -> Result<(), OutOfMemory>
    requires { IsBinder (part_term part) }
    ensures { OnOk result (Begun text.old.items depths.types depths.values (part_term part.entry)
        (todos tasks.old.items) text.new.items (todos tasks.new.items)) }
{
    let whole = Line::Expression;
    match &node(part).shape {
        FShape::Fix { arg, res, body } => {
            let inner = with_more(depths, 0, 2)?;
            write_head(text, depths, inner, arg, res)?;
            push(tasks, Task::Term(child(part, *body, whole, inner)))
        }
        FShape::Gen(body) => {
            text.extend_from_slice(b"gen ")?;
            write_type_name(text, depths.types)?;
            text.extend_from_slice(b". ")?;
            let inner = with_more(depths, 1, 0)?;
            push(tasks, Task::Term(child(part, *body, whole, inner)))
        }
        FShape::Let(a, b) => {
            text.extend_from_slice(b"let ")?;
            write_value_name(text, depths.values)?;
            text.extend_from_slice(b" = ")?;
            let body = child(part, *b, whole, with_more(depths, 0, 1)?);
            push_two(tasks, child(part, *a, whole, depths), b" in\n", body)
        }
        FShape::Open(a, b) => {
            write_opening(text, depths)?;
            let body = child(part, *b, whole, with_more(depths, 1, 1)?);
            push_two(tasks, child(part, *a, whole, depths), b" in\n", body)
        }
        _ => unreachable!(),
    }
}
