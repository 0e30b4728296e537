// A file of rows.
use crate::checking::check;
use crate::keys::{GROUP, ROW, is_one_of, unknown_key};
use crate::row::Row;
use crate::text::{shown, text_of};
use crate::unlike::Unlike;
use crate::value::list;
use anyhow::{Result, bail};
use std::alloc::Global;
use std::fs;
use toml::{Table, Value};

// How many rows there are, and how many of them do not hold.
#[derive(Clone, Copy)]
struct Counts {
    rows: u64,
    unlike: u64,
}

// Prints what does not hold of a row.
fn put_unlike(rt: &HostRuntime, alloc: Global, unlike: &Unlike) -> Result<()> {
    match unlike {
        Unlike::Memory => println!(rt; "  out of memory")?,
        Unlike::Form => println!(rt; "  a value of another form, or with another key")?,
        Unlike::Part { part, wanted, came } => {
            let wanted = shown(alloc, wanted)?;
            let came = shown(alloc, came)?;
            println!(rt; "  {part}, wanted: {wanted}\n  {part}, came: {came}")?;
        }
    }
    Ok(())
}

// Prints which row does not hold.
fn put_row(rt: &HostRuntime, alloc: Global, name: &str, row: &Row) -> Result<()> {
    let words = row.string("words", "").unwrap_or("");
    println!(rt; "{name}: talc {words}")?;
    if let Some(text) = row.said("text") {
        if let Ok(bytes) = text_of(alloc, text) {
            let text = shown(alloc, &bytes)?;
            println!(rt; "  of {text}")?;
        }
    }
    Ok(())
}

// A group of rows.
#[derive(Clone, Copy)]
struct Group<'a> {
    name: &'a str,
    rows: &'a [Value],
    keys: &'a Table,
}

fn group_of(keys: &Table) -> Option<Group<'_>> {
    let name = keys.get("name")?.as_str()?;
    let rows = list(keys.get("rows")?)?;
    Some(Group { name, rows, keys })
}

// Whether some row has no such key.
fn is_wanted(rows: &[Value], key: &str) -> bool {
    for row in rows {
        match row.as_table() {
            Some(row) if row.contains_key(key) => {}
            _ => return true,
        }
    }
    false
}

// The first key of the group that says nothing for any row.
fn idle_key<'a>(group: &Group<'a>) -> Option<&'a str> {
    for (key, _) in group.keys.iter() {
        if !is_one_of(GROUP, key) && !(is_one_of(ROW, key) && is_wanted(group.rows, key)) {
            return Some(key.as_str());
        }
    }
    None
}

// A group that has what it must have, and nothing else.
fn read_group(value: &Value) -> Result<Group<'_>> {
    let Some(keys) = value.as_table() else {
        bail!("a group is no table");
    };
    let Some(group) = group_of(keys) else {
        bail!("a group has no name, or no rows");
    };
    match idle_key(&group) {
        Some(key) => bail!("{}: `{key}` is no key, or each row has its own", group.name),
        None => Ok(group),
    }
}

// A row that has what it may have.
fn read_row<'a>(group: &Group<'a>, value: &'a Value) -> Result<Row<'a>> {
    let Some(own) = value.as_table() else {
        bail!("{}: a row is no table", group.name);
    };
    match unknown_key(own, ROW) {
        Some(key) => bail!("{}: `{key}` is no key of a row", group.name),
        None => Ok(Row {
            group: group.keys,
            own,
        }),
    }
}

fn check_row(rt: &HostRuntime, alloc: Global, name: &str, row: &Row) -> Result<bool> {
    match check(alloc, row) {
        Ok(()) => Ok(true),
        Err(unlike) => {
            put_row(rt, alloc, name, row)?;
            put_unlike(rt, alloc, &unlike)?;
            Ok(false)
        }
    }
}

fn check_group(rt: &HostRuntime, alloc: Global, group: &Group, before: Counts) -> Result<Counts> {
    let mut counts = before;
    for value in group.rows {
        let row = read_row(group, value)?;
        counts.rows = counts.rows.saturating_add(1);
        if !check_row(rt, alloc, group.name, &row)? {
            counts.unlike = counts.unlike.saturating_add(1);
        }
    }
    Ok(counts)
}

fn check_groups(rt: &HostRuntime, alloc: Global, groups: &[Value]) -> Result<Counts> {
    let mut counts = Counts { rows: 0, unlike: 0 };
    for group in groups {
        let group = read_group(group)?;
        counts = check_group(rt, alloc, &group, counts)?;
    }
    Ok(counts)
}

// The groups of a file, which has nothing else.
fn groups_of(file: &Table) -> Option<&[Value]> {
    let groups = list(file.get("group")?)?;
    if file.len() == 1 { Some(groups) } else { None }
}

fn read_table(rt: &HostRuntime, alloc: Global, name: &str) -> Result<Table> {
    let text = match fs::read(rt, name) {
        Ok(text) => text,
        Err(error) => bail!("{name}: {error}"),
    };
    match toml::table_from_slice(alloc, &text) {
        Ok(table) => Ok(table),
        Err(error) => bail!("{name}: {error}"),
    }
}

/// Does what the rows of a file say, and prints how many there are, behind those that do not hold; answers how many do
/// not hold.
pub fn check_file(rt: &HostRuntime, alloc: Global, name: &str) -> Result<u64> {
    let file = read_table(rt, alloc, name)?;
    let Some(groups) = groups_of(&file) else {
        bail!("{name}: not groups alone");
    };
    let counts = check_groups(rt, alloc, groups)?;
    println!(rt; "{name}: {} rows", counts.rows)?;
    Ok(counts.unlike)
}
