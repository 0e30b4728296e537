// The keys that the tables of a row file may have.
use toml::Table;

/// Those of a row, which its group may have for it.
pub const ROW: &[&str] = &[
    "any",
    "any_err",
    "bare",
    "counts",
    "err",
    "fails",
    "faults",
    "file",
    "first",
    "left",
    "out",
    "parts",
    "registers",
    "same",
    "status",
    "text",
    "words",
];

/// Those of a group beside them.
pub const GROUP: &[&str] = &["name", "rows"];

/// Those of a command that is done before that of the row.
pub const STEP: &[&str] = &["err", "out", "status", "words"];

/// Those of the calls that fail.
pub const FAILS: &[&str] = &["err", "files", "out"];

/// Those of a part of a file.
pub const PART: &[&str] = &["at", "file", "text"];

/// Whether the key is one of these.
pub fn is_one_of(keys: &[&str], key: &str) -> bool {
    for known in keys {
        if *known == key {
            return true;
        }
    }
    false
}

/// The first key of the table that is none of these.
pub fn unknown_key<'a>(table: &'a Table, keys: &[&str]) -> Option<&'a str> {
    for (key, _) in table.iter() {
        if !is_one_of(keys, key) {
            return Some(key.as_str());
        }
    }
    None
}
