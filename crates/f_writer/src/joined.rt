// The first step of a form of parts with bytes between them.
ghost use Rattle.std.specs.Prelude.{◌≡◌, OnOk};
ghost use Rattle.f_writer.specs.Notation.{op_text};
ghost use Rattle.f_writer.specs.Parts.{part_term};
ghost use Rattle.f_writer.specs.Tasks.{todos, Begun, IsJoined};

use crate::depths::Depths;
use crate::line::{Line, op_line, right_line};
use crate::part::Part;
use crate::parts::node;
use crate::task::{Task, child, push, push_two};
use f_terms::FShape;
use idx_core::{Op, OutOfMemory};

fn op_bytes(op: Op) -> &'static [u8]
    ensures { result.now ≡ op_text op }
{
    match op {
        Op::Add => b" + ",
        Op::Sub => b" - ",
        Op::Mul => b" * ",
    }
}

/// The first step of a call, an operation, an `if0` or an assignment.
pub(crate) fn begin_joined<'a>(
    text: &mut Vec<u8>,
    tasks: &mut Vec<Task<'a>>,
    part: Part<'a>,
    depths: Depths,
) -> Result<(), OutOfMemory>
    requires { IsJoined (part_term part) }
    ensures { OnOk result (Begun text.old.items depths.types depths.values (part_term part.entry)
        (todos tasks.old.items) text.new.items (todos tasks.new.items)) }
{
    match &node(part).shape {
        FShape::App(f, x) => {
            let argument = child(part, *x, Line::Primary, depths);
            push_two(tasks, child(part, *f, Line::Call, depths), b" ", argument)
        }
        FShape::Arith(op, a, b) => {
            let left = child(part, *a, op_line(*op), depths);
            let right = child(part, *b, right_line(*op), depths);
            push_two(tasks, left, op_bytes(*op), right)
        }
        FShape::If0(c, a, b) => {
            let whole = Line::Expression;
            text.extend_from_slice(b"if0(")?;
            push(tasks, Task::Bytes(b")"))?;
            push(tasks, Task::Term(child(part, *b, whole, depths)))?;
            push(tasks, Task::Bytes(b", "))?;
            let zero = child(part, *a, whole, depths);
            push_two(tasks, child(part, *c, whole, depths), b", ", zero)
        }
        FShape::Assign(a, b) => {
            let right = child(part, *b, Line::Sum, depths);
            push_two(tasks, child(part, *a, Line::Sum, depths), b" := ", right)
        }
        _ => unreachable!(),
    }
}
