// Values of a row file, read as what a key wants of them.
use toml::Value;

/// A number.
pub fn number(value: &Value) -> Option<u64> {
    u64::try_from(value.as_integer()?).ok()
}

/// A number below 256.
pub fn byte(value: &Value) -> Option<u8> {
    u8::try_from(value.as_integer()?).ok()
}

/// A list.
pub fn list(value: &Value) -> Option<&[Value]> {
    match value {
        Value::Array(items) => Some(items.as_slice()),
        _ => None,
    }
}

// A list of so many items.
fn list_of(value: &Value, count: usize) -> Option<&[Value]> {
    let items = list(value)?;
    if items.len() == count {
        Some(items)
    } else {
        None
    }
}

fn string_at(items: &[Value], at: usize) -> Option<&str> {
    items.get(at)?.as_str()
}

fn number_at(items: &[Value], at: usize) -> Option<u64> {
    number(items.get(at)?)
}

/// Two numbers.
pub fn numbers(value: &Value) -> Option<(u64, u64)> {
    let items = list_of(value, 2)?;
    Some((number_at(items, 0)?, number_at(items, 1)?))
}

/// Two names.
pub fn names(value: &Value) -> Option<(&str, &str)> {
    let items = list_of(value, 2)?;
    Some((string_at(items, 0)?, string_at(items, 1)?))
}

/// A string, and how often it stands there.
pub fn repeated(value: &Value) -> Option<(&str, u64)> {
    let items = list_of(value, 2)?;
    Some((string_at(items, 0)?, number_at(items, 1)?))
}

/// A file, a word, and how often it stands there.
pub fn count(value: &Value) -> Option<(&str, &str, u64)> {
    let items = list_of(value, 3)?;
    Some((
        string_at(items, 0)?,
        string_at(items, 1)?,
        number_at(items, 2)?,
    ))
}

/// A string and two numbers.
pub fn numbered(value: &Value) -> Option<(&str, u64, u64)> {
    let items = list_of(value, 3)?;
    Some((
        string_at(items, 0)?,
        number_at(items, 1)?,
        number_at(items, 2)?,
    ))
}
