// A row with what its group says for it.
use crate::keys::{FAILS, unknown_key};
use crate::unlike::Unlike;
use crate::value::{byte, list, numbers};
use toml::{Table, Value};

/// A row: its own keys, and those of its group for what it does not say itself.
#[derive(Clone, Copy)]
pub struct Row<'a> {
    pub group: &'a Table,
    pub own: &'a Table,
}

// What was read, of a value that has another form where nothing was.
fn read<T>(value: Option<T>) -> Result<T, Unlike> {
    match value {
        Some(value) => Ok(value),
        None => Err(Unlike::Form),
    }
}

impl<'a> Row<'a> {
    /// What the row says, or else its group.
    pub fn said(&self, key: &str) -> Option<&'a Value> {
        match self.own.get(key) {
            Some(value) => Some(value),
            None => self.group.get(key),
        }
    }

    /// A string.
    pub fn string(&self, key: &str, usual: &'a str) -> Result<&'a str, Unlike> {
        match self.said(key) {
            Some(value) => read(value.as_str()),
            None => Ok(usual),
        }
    }

    /// The items of a list, of which there are none where nothing is said.
    pub fn items(&self, key: &str) -> Result<&'a [Value], Unlike> {
        match self.said(key) {
            Some(value) => read(list(value)),
            None => Ok(&[]),
        }
    }

    /// The files that are left.
    pub fn left(&self) -> Result<Option<&'a Table>, Unlike> {
        match self.said("left") {
            Some(value) => Ok(Some(read(value.as_table())?)),
            None => Ok(None),
        }
    }

    /// The calls that fail.
    pub fn fails(&self) -> Result<Option<&'a Table>, Unlike> {
        match self.said("fails") {
            Some(value) => Ok(Some(table_of(value, FAILS)?)),
            None => Ok(None),
        }
    }

    /// How many reads, and how many writes, have failed.
    pub fn faults(&self) -> Result<(u64, u64), Unlike> {
        match self.said("faults") {
            Some(value) => read(numbers(value)),
            None => Ok((0, 0)),
        }
    }

    /// Whether the row says so.
    pub fn flag(&self, key: &str) -> Result<bool, Unlike> {
        match self.said(key) {
            Some(value) => read(value.as_bool()),
            None => Ok(false),
        }
    }
}

/// A table with no other keys than these.
pub fn table_of<'a>(value: &'a Value, keys: &[&str]) -> Result<&'a Table, Unlike> {
    let table = read(value.as_table())?;
    match unknown_key(table, keys) {
        Some(_) => Err(Unlike::Form),
        None => Ok(table),
    }
}

/// The status that is wanted of a command.
pub fn status_of(status: Option<&Value>) -> Result<u8, Unlike> {
    match status {
        Some(status) => read(byte(status)),
        None => Ok(0),
    }
}
