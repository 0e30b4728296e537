// What does not hold of a row.
use std::alloc::{AllocError, AllocFailed, Global};

/// Why a row does not hold.
#[derive(Drop)]
pub enum Unlike {
    /// Memory was wanted and not had.
    Memory,
    /// A value of the row has another form than its key wants.
    Form,
    /// A part of what a command leaves is another one.
    Part {
        part: String,
        wanted: Vec<u8>,
        came: Vec<u8>,
    },
}

impl From<AllocError> for Unlike {
    fn from(_: AllocError) -> Unlike {
        Unlike::Memory
    }
}

impl<T: Drop> From<AllocFailed<T>> for Unlike {
    fn from(_: AllocFailed<T>) -> Unlike {
        Unlike::Memory
    }
}

/// A part that is another one.
pub fn part_unlike(
    alloc: Global,
    part: &str,
    wanted: &[u8],
    came: &[u8],
) -> Result<Unlike, AllocError> {
    Ok(Unlike::Part {
        part: String::from_str(alloc, part)?,
        wanted: Vec::from_slice(alloc, wanted)?,
        came: Vec::from_slice(alloc, came)?,
    })
}

/// The same bytes.
pub fn is_same(alloc: Global, part: &str, wanted: &[u8], came: &[u8]) -> Result<(), Unlike> {
    if wanted == came {
        return Ok(());
    }
    Err(part_unlike(alloc, part, wanted, came)?)
}

/// The same number.
pub fn is_number(alloc: Global, part: &str, wanted: u64, came: u64) -> Result<(), Unlike> {
    if wanted == came {
        return Ok(());
    }
    let wanted = format!(in alloc; "{wanted}")?;
    let came = format!(in alloc; "{came}")?;
    Err(part_unlike(alloc, part, wanted.as_bytes(), came.as_bytes())?)
}
