// Paths into types, as a reader says them.
ghost use Rattle.std.specs.Prelude.{◌≡◌, ◌++◌, codes, decimal, IfOk, OnOk};
ghost use Rattle.type_path.specs.Paths.{path_of};
ghost use Rattle.talc_faults.specs.Apart.{step_text, steps_text, steps_room, path_text};

use crate::source::write_words;
use idx_core::OutOfMemory;
use itoa::Buffer;
use std::alloc::Global;
use type_path::Step;

// So many bytes the steps that are told may take.
const ROOM: usize = 89;

// Words and a number.
fn write_numbered(text: &mut Vec<u8>, words: &[u8], number: u64) -> Result<(), OutOfMemory>
    ensures { OnOk result (text.new.items ≡ text.old.items ++ (words.now ++ decimal number)) }
{
    let mut digits = Buffer::new();
    text.extend_from_slice(words)?;
    text.extend_from_slice(digits.format(number).as_bytes())?;
    Ok(())
}

// One step.
fn write_step(text: &mut Vec<u8>, step: Step) -> Result<(), OutOfMemory>
    ensures { OnOk result (text.new.items ≡ text.old.items ++ step_text step) }
{
    match step {
        Step::Argument => write_words(text, b"the argument"),
        Step::Result => write_words(text, b"the result"),
        Step::Body => write_words(text, b"the body"),
        Step::Cell => write_words(text, b"the cell"),
        Step::Field(i) => write_numbered(text, b"field ", i),
        Step::Flag(i) => write_numbered(text, b"the flag of field ", i),
        Step::Register(r) => write_numbered(text, b"register r", r),
    }
}

// The text of a step behind some words.
fn step_behind(alloc: Global, before: &[u8], step: Step) -> Result<Vec<u8>, OutOfMemory>
    ensures { IfOk result (λ text. text.items ≡ before.now ++ step_text step) }
{
    let mut text = Vec::from_slice(alloc, before)?;
    write_step(&mut text, step)?;
    Ok(text)
}

// Dots behind some words, for steps that are left.
fn write_dots(text: &mut Vec<u8>, before: &[u8]) -> Result<(), OutOfMemory>
    ensures { OnOk result (text.new.items ≡ text.old.items ++ (before.now ++ codes "..")) }
{
    text.extend_from_slice(before)?;
    text.extend_from_slice(b"..")?;
    Ok(())
}

// The text of the steps of a path whose last step is the first of these: at most 98 bytes, with dots for the steps that
// have no room.
fn write_steps(alloc: Global, text: &mut Vec<u8>, path: &[Step]) -> Result<(), OutOfMemory>
    ensures { OnOk result (text.new.items
        ≡ text.old.items ++ steps_text steps_room (codes " ") (path_of path.now)) }
{
    let mut before = b" ".as_slice();
    let mut room = ROOM;
    let mut at = path.len();
    while at > 0 {
        at -= 1;
        let piece = step_behind(alloc, before, path[at])?;
        if piece.len() > room {
            write_dots(text, before)?;
            return Ok(());
        }
        text.extend_from_slice(&piece)?;
        room -= piece.len();
        before = b", then ".as_slice();
    }
    Ok(())
}

// The text of a path on a line of its own, below another one.
pub(crate) fn write_path(
    alloc: Global,
    text: &mut Vec<u8>,
    path: &[Step],
) -> Result<(), OutOfMemory>
    ensures { OnOk result (text.new.items
        ≡ text.old.items ++ (codes "\n" ++ path_text (path_of path.now))) }
{
    text.extend_from_slice(b"\nat")?;
    write_steps(alloc, text, path)
}
