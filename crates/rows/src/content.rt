// What is said of a file without its whole content.
use crate::files::held;
use crate::keys::PART;
use crate::row::{Row, table_of};
use crate::text::text_of;
use crate::unlike::{Unlike, is_number, is_same, part_unlike};
use crate::value::{count, names, numbered};
use io_core::MemFiles;
use std::alloc::{AllocError, Global};
use std::mem;
use toml::{Table, Value};

fn is_of_word(byte: u8) -> bool {
    byte.is_ascii_alphanumeric() || byte == b'_'
}

// The words of a text, of letters, digits and `_`, and empty ones between other bytes.
fn words_in(alloc: Global, text: &[u8]) -> Result<Vec<Vec<u8>>, AllocError> {
    let mut words = Vec::new(alloc);
    let mut word = Vec::new(alloc);
    for byte in text {
        if is_of_word(*byte) {
            word.push(*byte)?;
        } else {
            let whole = mem::replace(&mut word, Vec::new(alloc));
            words.push(whole)?;
        }
    }
    words.push(word)?;
    Ok(words)
}

fn count_of(words: &[Vec<u8>], wanted: &[u8]) -> u64 {
    let mut count: u64 = 0;
    for word in words {
        if word.as_slice() == wanted {
            count = count.saturating_add(1);
        }
    }
    count
}

fn register_of(word: &[u8]) -> Option<u64> {
    let word = str::from_utf8(word).ok()?;
    word.strip_prefix("r")?.parse::<u64>().ok()
}

// The greatest register that stands among the words, or 0.
fn greatest_register(words: &[Vec<u8>]) -> u64 {
    let mut greatest: u64 = 0;
    for word in words {
        if let Some(register) = register_of(word) {
            if greatest < register {
                greatest = register;
            }
        }
    }
    greatest
}

fn is_counted(alloc: Global, files: &MemFiles, said: &Value) -> Result<(), Unlike> {
    let Some((file, word, wanted)) = count(said) else {
        return Err(Unlike::Form);
    };
    let content = held(alloc, files, file)?;
    let words = words_in(alloc, content)?;
    is_number(alloc, word, wanted, count_of(&words, word.as_bytes()))
}

// The greatest register of a file lies between two numbers.
fn has_registers(alloc: Global, files: &MemFiles, said: &Value) -> Result<(), Unlike> {
    let Some((file, least, most)) = numbered(said) else {
        return Err(Unlike::Form);
    };
    let content = held(alloc, files, file)?;
    let words = words_in(alloc, content)?;
    let register = greatest_register(&words);
    if register < least {
        is_number(alloc, "greatest register, at least", least, register)?;
    }
    if most < register {
        is_number(alloc, "greatest register, at most", most, register)?;
    }
    Ok(())
}

fn has_inside(text: &[u8], part: &[u8]) -> bool {
    for at in 0..text.len() {
        if text[at..].starts_with(part) {
            return true;
        }
    }
    false
}

// Whether a part stands at the place of this name, if it is one.
fn has(text: &[u8], part: &[u8], place: &str) -> Option<bool> {
    match place {
        "begin" => Some(text.starts_with(part)),
        "end" => Some(text.ends_with(part)),
        "inside" => Some(has_inside(text, part)),
        _ => None,
    }
}

// A file, a place and a text.
fn part_of(part: &Table) -> Option<(&str, &str, &Value)> {
    let file = part.get("file")?.as_str()?;
    let place = part.get("at")?.as_str()?;
    Some((file, place, part.get("text")?))
}

fn has_part(alloc: Global, files: &MemFiles, part: &Table) -> Result<(), Unlike> {
    let Some((file, place, text)) = part_of(part) else {
        return Err(Unlike::Form);
    };
    let content = held(alloc, files, file)?;
    let wanted = text_of(alloc, text)?;
    match has(content, &wanted, place) {
        Some(true) => Ok(()),
        Some(false) => Err(part_unlike(alloc, file, &wanted, content)?),
        None => Err(Unlike::Form),
    }
}

fn is_same_file(alloc: Global, files: &MemFiles, said: &Value) -> Result<(), Unlike> {
    let Some((name, other)) = names(said) else {
        return Err(Unlike::Form);
    };
    let wanted = held(alloc, files, name)?;
    let came = held(alloc, files, other)?;
    is_same(alloc, other, wanted, came)
}

fn are_counted(alloc: Global, files: &MemFiles, row: &Row) -> Result<(), Unlike> {
    for said in row.items("counts")? {
        is_counted(alloc, files, said)?;
    }
    Ok(())
}

fn have_registers(alloc: Global, files: &MemFiles, row: &Row) -> Result<(), Unlike> {
    for said in row.items("registers")? {
        has_registers(alloc, files, said)?;
    }
    Ok(())
}

fn have_parts(alloc: Global, files: &MemFiles, row: &Row) -> Result<(), Unlike> {
    for part in row.items("parts")? {
        has_part(alloc, files, table_of(part, PART)?)?;
    }
    Ok(())
}

fn are_same(alloc: Global, files: &MemFiles, row: &Row) -> Result<(), Unlike> {
    for said in row.items("same")? {
        is_same_file(alloc, files, said)?;
    }
    Ok(())
}

/// What the row says of words, registers and parts of files, and of files that hold the same.
pub fn is_as_said(alloc: Global, files: &MemFiles, row: &Row) -> Result<(), Unlike> {
    are_counted(alloc, files, row)?;
    have_registers(alloc, files, row)?;
    have_parts(alloc, files, row)?;
    are_same(alloc, files, row)
}
