// The files of a row, before its commands and after them.
use crate::row::Row;
use crate::text::text_of;
use crate::unlike::{Unlike, is_number, is_same, part_unlike};
use crate::value::{list, numbers};
use io_core::MemFiles;
use std::alloc::Global;
use std::collections::BTreeMap;
use toml::{Table, Value};

// Adds the calls that a list of pairs of numbers names.
fn add_calls(failing: &mut Vec<(u64, u64)>, calls: &[Value]) -> Result<(), Unlike> {
    for call in calls {
        match numbers(call) {
            Some(call) => failing.push(call)?,
            None => return Err(Unlike::Form),
        }
    }
    Ok(())
}

// What is said of the calls that fail, of the files or of an output.
fn said_of<'a>(row: &Row<'a>, what: &str) -> Result<Option<&'a Value>, Unlike> {
    match row.fails()? {
        Some(fails) => Ok(fails.get(what)),
        None => Ok(None),
    }
}

// Whether memory is what the calls want.
fn is_memory(said: &Value) -> bool {
    said.as_str() == Some("memory")
}

/// Whether the files, or an output, find no memory.
pub fn is_scant(row: &Row, what: &str) -> Result<bool, Unlike> {
    match said_of(row, what)? {
        Some(said) => Ok(is_memory(said)),
        None => Ok(false),
    }
}

// The list of calls that fail, of the files or of an output.
fn calls_of<'a>(row: &Row<'a>, what: &str) -> Result<&'a [Value], Unlike> {
    match said_of(row, what)? {
        Some(said) if !is_memory(said) => list(said).ok_or(Unlike::Form),
        _ => Ok(&[]),
    }
}

/// The calls that fail, each by its number, with how many bytes it moves all the same: under `files` calls of the
/// files, those of the steps counted, under `out` and `err` puts of the row's own command.
pub fn failing(alloc: Global, row: &Row, what: &str) -> Result<Vec<(u64, u64)>, Unlike> {
    let calls = calls_of(row, what)?;
    let mut failing = Vec::new(alloc);
    add_calls(&mut failing, calls)?;
    Ok(failing)
}

fn insert(
    files: &mut BTreeMap<String, Vec<u8>>,
    name: String,
    content: Vec<u8>,
) -> Result<(), Unlike> {
    files.insert(name, content)?;
    Ok(())
}

fn add_file(
    alloc: Global,
    files: &mut BTreeMap<String, Vec<u8>>,
    name: &str,
    text: &Value,
) -> Result<(), Unlike> {
    let content = text_of(alloc, text)?;
    let name = String::from_str(alloc, name)?;
    insert(files, name, content)
}

// Adds the file with the text of the row, if it has one.
fn add_text(alloc: Global, files: &mut BTreeMap<String, Vec<u8>>, row: &Row) -> Result<(), Unlike> {
    let name = row.string("file", "x")?;
    match row.said("text") {
        Some(text) => add_file(alloc, files, name, text),
        None => Ok(()),
    }
}

fn named(alloc: Global, row: &Row) -> Result<BTreeMap<String, Vec<u8>>, Unlike> {
    let mut files = BTreeMap::new(alloc);
    add_text(alloc, &mut files, row)?;
    Ok(files)
}

/// The file with the text of the row, if it has one.
pub fn files_before(alloc: Global, row: &Row) -> Result<MemFiles, Unlike> {
    let failing = failing(alloc, row, "files")?;
    let files = named(alloc, row)?;
    Ok(MemFiles::new(files, failing))
}

/// What a file holds that has to stand.
pub fn held<'a>(alloc: Global, files: &'a MemFiles, name: &str) -> Result<&'a [u8], Unlike> {
    match files.files().get(name) {
        Some(content) => Ok(content.as_slice()),
        None => Err(part_unlike(alloc, name, b"a file", b"no file")?),
    }
}

// The file holds this text.
fn is_text(alloc: Global, name: &str, text: &Value, content: &[u8]) -> Result<(), Unlike> {
    let wanted = text_of(alloc, text)?;
    is_same(alloc, name, &wanted, content)
}

fn is_one_of(names: &[Value], name: &str) -> bool {
    for one in names {
        if one.as_str() == Some(name) {
            return true;
        }
    }
    false
}

// The text that is said to be left of this file.
fn left_of<'a>(row: &Row<'a>, name: &str) -> Result<Option<&'a Value>, Unlike> {
    match row.left()? {
        Some(left) => Ok(left.get(name)),
        None => Ok(None),
    }
}

// A file that stands is one of those that the row says. The file of its text is as before where it says nothing else.
fn is_wanted(alloc: Global, row: &Row, name: &str, content: &[u8]) -> Result<(), Unlike> {
    if let Some(text) = left_of(row, name)? {
        return is_text(alloc, name, text, content);
    }
    if is_one_of(row.items("any")?, name) {
        return Ok(());
    }
    if name == row.string("file", "x")? {
        if let Some(text) = row.said("text") {
            return is_text(alloc, name, text, content);
        }
    }
    Err(part_unlike(alloc, name, b"no file", content)?)
}

fn are_wanted(alloc: Global, files: &MemFiles, row: &Row) -> Result<(), Unlike> {
    for (name, content) in files.files().iter() {
        is_wanted(alloc, row, name, content)?;
    }
    Ok(())
}

fn any_stand(alloc: Global, files: &MemFiles, row: &Row) -> Result<(), Unlike> {
    for name in row.items("any")? {
        match name.as_str() {
            Some(name) => held(alloc, files, name)?,
            None => return Err(Unlike::Form),
        };
    }
    Ok(())
}

fn left_stand(alloc: Global, files: &MemFiles, left: &Table) -> Result<(), Unlike> {
    for (name, _) in left.iter() {
        held(alloc, files, name)?;
    }
    Ok(())
}

// All files that the row says stand.
fn stand(alloc: Global, files: &MemFiles, row: &Row) -> Result<(), Unlike> {
    if row.said("text").is_some() {
        held(alloc, files, row.string("file", "x")?)?;
    }
    if let Some(left) = row.left()? {
        left_stand(alloc, files, left)?;
    }
    any_stand(alloc, files, row)
}

/// After the commands the files stand that the row says, with what they hold, and no other one; and as many calls have
/// failed.
pub fn are_left(alloc: Global, files: &MemFiles, row: &Row) -> Result<(), Unlike> {
    are_wanted(alloc, files, row)?;
    stand(alloc, files, row)?;
    let (wanted_reads, wanted_writes) = row.faults()?;
    let (reads, writes) = files.faults();
    is_number(alloc, "reads that failed", wanted_reads, reads)?;
    is_number(alloc, "writes that failed", wanted_writes, writes)
}
