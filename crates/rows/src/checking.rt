// The commands of a row, each with what is wanted of it.
use crate::content::is_as_said;
use crate::files::{are_left, failing, files_before, is_scant};
use crate::keys::STEP;
use crate::row::{Row, status_of, table_of};
use crate::scant::{RowFiles, RowSink};
use crate::text::bytes_of;
use crate::unlike::{Unlike, is_number, is_same, part_unlike};
use io_core::MemSink;
use std::alloc::{AllocError, Global};
use talc_core::talc;
use toml::{Table, Value};

// The words of a command line behind the program's own name; where there is no line, there are no words at all.
fn words_of(alloc: Global, line: Option<&str>) -> Result<Vec<String>, AllocError> {
    let mut words = Vec::new(alloc);
    let Some(line) = line else {
        return Ok(words);
    };
    words.push(String::from_str(alloc, "talc")?)?;
    for word in line.split_whitespace() {
        words.push(String::from_str(alloc, word)?)?;
    }
    Ok(words)
}

// A command, and what is wanted of it.
#[derive(Clone, Copy)]
struct Command<'a> {
    words: Option<&'a str>,
    status: u8,
    out: Option<&'a Value>,
    err: Option<&'a Value>,
    any_err: bool,
}

// The two outputs of a command.
#[derive(Drop)]
struct Outputs {
    out: RowSink,
    err: RowSink,
}

// What is wanted on the error output.
fn is_told(alloc: Global, command: &Command, came: &[u8]) -> Result<(), Unlike> {
    let wanted = bytes_of(alloc, command.err)?;
    if !command.any_err {
        return is_same(alloc, "error output", &wanted, came);
    }
    if came.is_empty() {
        return Err(part_unlike(alloc, "error output", b"something", b"")?);
    }
    Ok(())
}

// What is wanted on the output.
fn is_shown(alloc: Global, command: &Command, came: &[u8]) -> Result<(), Unlike> {
    let wanted = bytes_of(alloc, command.out)?;
    is_same(alloc, "output", &wanted, came)
}

// What came of a command is what is wanted of it.
fn is_answer(
    alloc: Global,
    command: &Command,
    outputs: &Outputs,
    status: u8,
) -> Result<(), Unlike> {
    is_told(alloc, command, outputs.err.sink.taken())?;
    is_shown(alloc, command, outputs.out.sink.taken())?;
    is_number(
        alloc,
        "status",
        u64::from(command.status),
        u64::from(status),
    )
}

// Does the command over the files and these outputs.
fn does(
    alloc: Global,
    files: &mut RowFiles,
    mut outputs: Outputs,
    command: &Command,
) -> Result<(), Unlike> {
    let words = words_of(alloc, command.words)?;
    let status = talc(alloc, &words, files, &mut outputs.out, &mut outputs.err);
    is_answer(alloc, command, &outputs, status.number())
}

// A command that is done before that of the row.
fn step_of(step: &Table) -> Result<Command<'_>, Unlike> {
    let words = match step.get("words") {
        Some(words) => words.as_str(),
        None => None,
    };
    match words {
        Some(words) => Ok(Command {
            words: Some(words),
            status: status_of(step.get("status"))?,
            out: step.get("out"),
            err: step.get("err"),
            any_err: false,
        }),
        None => Err(Unlike::Form),
    }
}

// An output whose puts fail that the list names.
fn output(alloc: Global, failing: Vec<(u64, u64)>, scant: bool) -> RowSink {
    RowSink {
        sink: MemSink::new(alloc, failing),
        scant,
        wants: 0,
    }
}

fn does_step(alloc: Global, files: &mut RowFiles, step: &Value) -> Result<(), Unlike> {
    let command = step_of(table_of(step, STEP)?)?;
    let out = output(alloc, Vec::new(alloc), false);
    let err = output(alloc, Vec::new(alloc), false);
    does(alloc, files, Outputs { out, err }, &command)
}

// Does the commands before that of the row.
fn does_first(alloc: Global, files: &mut RowFiles, row: &Row) -> Result<(), Unlike> {
    for step in row.items("first")? {
        does_step(alloc, files, step)?;
    }
    Ok(())
}

fn command_of<'a>(row: &Row<'a>) -> Result<Command<'a>, Unlike> {
    Ok(Command {
        words: if row.flag("bare")? {
            None
        } else {
            Some(row.string("words", "")?)
        },
        status: status_of(row.said("status"))?,
        out: row.said("out"),
        err: row.said("err"),
        any_err: row.flag("any_err")?,
    })
}

// Does the command of the row.
fn does_own(alloc: Global, files: &mut RowFiles, row: &Row) -> Result<(), Unlike> {
    let command = command_of(row)?;
    let out = output(alloc, failing(alloc, row, "out")?, is_scant(row, "out")?);
    let err = output(alloc, failing(alloc, row, "err")?, is_scant(row, "err")?);
    does(alloc, files, Outputs { out, err }, &command)
}

// The row holds over these files.
fn holds(alloc: Global, files: &mut RowFiles, row: &Row) -> Result<(), Unlike> {
    does_first(alloc, files, row)?;
    does_own(alloc, files, row)?;
    are_left(alloc, &files.files, row)?;
    is_as_said(alloc, &files.files, row)
}

/// The row holds.
pub fn check(alloc: Global, row: &Row) -> Result<(), Unlike> {
    let mut files = RowFiles {
        files: files_before(alloc, row)?,
        scant: is_scant(row, "files")?,
    };
    holds(alloc, &mut files, row)
}
