// Texts of a row file.
use crate::unlike::Unlike;
use crate::value::{byte, list, numbered, repeated};
use std::alloc::{AllocError, Global};
use toml::Value;

// So many bytes of a text are shown.
const MOST_SHOWN: usize = 400;

fn add_times(bytes: &mut Vec<u8>, text: &str, times: u64) -> Result<(), Unlike> {
    for _ in 0..times {
        bytes.extend_from_slice(text.as_bytes())?;
    }
    Ok(())
}

fn add_byte(bytes: &mut Vec<u8>, value: &Value) -> Result<(), Unlike> {
    match byte(value) {
        Some(byte) => Ok(bytes.push(byte)?),
        None => Err(Unlike::Form),
    }
}

fn add_number(bytes: &mut Vec<u8>, number: u64) -> Result<(), Unlike> {
    let digits = format!(in *bytes.allocator(); "{number}")?;
    Ok(bytes.extend_from_slice(digits.as_bytes())?)
}

// A string, with the one number where `%` stands, and the other one where `@` stands.
fn add_filled(bytes: &mut Vec<u8>, text: &str, up: u64, down: u64) -> Result<(), Unlike> {
    for byte in text.as_bytes() {
        match *byte {
            b'%' => add_number(bytes, up)?,
            b'@' => add_number(bytes, down)?,
            other => bytes.push(other)?,
        }
    }
    Ok(())
}

// A string for each number from the first to the last, which stands for `%`; for `@` they stand from the last down.
fn add_numbered(bytes: &mut Vec<u8>, text: &str, first: u64, last: u64) -> Result<(), Unlike> {
    let sum = first.saturating_add(last);
    for number in first..last.saturating_add(1) {
        add_filled(bytes, text, number, sum.saturating_sub(number))?;
    }
    Ok(())
}

// A string, once or so many times or for each of some numbers, or one byte.
fn add_piece(bytes: &mut Vec<u8>, piece: &Value) -> Result<(), Unlike> {
    if let Some(text) = piece.as_str() {
        return add_times(bytes, text, 1);
    }
    if let Some((text, times)) = repeated(piece) {
        return add_times(bytes, text, times);
    }
    match numbered(piece) {
        Some((text, first, last)) => add_numbered(bytes, text, first, last),
        None => add_byte(bytes, piece),
    }
}

fn joined(alloc: Global, pieces: &[Value]) -> Result<Vec<u8>, Unlike> {
    let mut bytes = Vec::new(alloc);
    for piece in pieces {
        add_piece(&mut bytes, piece)?;
    }
    Ok(bytes)
}

/// The bytes of a text: a string, or a list of pieces.
pub fn text_of(alloc: Global, value: &Value) -> Result<Vec<u8>, Unlike> {
    if let Some(text) = value.as_str() {
        return Ok(Vec::from_slice(alloc, text.as_bytes())?);
    }
    match list(value) {
        Some(pieces) => joined(alloc, pieces),
        None => Err(Unlike::Form),
    }
}

/// The bytes of a text, of which none is wanted where it is not said.
pub fn bytes_of(alloc: Global, text: Option<&Value>) -> Result<Vec<u8>, Unlike> {
    match text {
        Some(text) => text_of(alloc, text),
        None => Ok(Vec::new(alloc)),
    }
}

fn first_bytes(alloc: Global, bytes: &[u8]) -> Result<Vec<u8>, AllocError> {
    let mut first = Vec::new(alloc);
    for byte in bytes.iter().take(MOST_SHOWN) {
        first.push(*byte)?;
    }
    Ok(first)
}

/// The first bytes of a text, as far as they can be read, behind how many there are.
pub fn shown(alloc: Global, bytes: &[u8]) -> Result<String, AllocError> {
    let first = first_bytes(alloc, bytes)?;
    let text = String::from_utf8_lossy(alloc, &first)?;
    format!(in alloc; "({} bytes) {text}", bytes.len())
}
