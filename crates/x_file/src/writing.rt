// A file as a whole.
ghost use Rattle.std.specs.Prelude.{◌≡◌, ◌≤◌, ◌<◌, ◌+◌, ◌++◌, OnOk, IfOk, IfErr, length, true, false};
ghost use Rattle.x_file.specs.File as spec;
ghost use Rattle.x_file.specs.File.{Fits, data_offset, gap, file_bytes};
ghost use Rattle.x_file.specs.Loaded.{IsLoaded};

use crate::segments::{put_head, put_zeros};
use idx_core::OutOfMemory;
use std::alloc::Global;

/// Why there is no file.
#[derive(Clone, Copy, Debug, PartialEq, Eq)]
pub enum FileError {
    /// Memory was wanted and not had.
    OutOfMemory,
    /// The code is longer than what lies below the data, or data and heap are larger than a process has addresses.
    TooLarge,
}

impl From<OutOfMemory> for FileError {
    ghost use Rattle.std.specs.Prelude.{◌≡◌};
    ghost use Rattle.x_file.specs.declared.writing.FileError.TheVariants as why;

    ghost from_gives = { λ _ e. e ≡ why.OutOfMemory };

    fn from(_: OutOfMemory) -> FileError {
        FileError::OutOfMemory
    }
}

// All has its place.
fn fits(count: u64, size: u64, heap: u64) -> bool
    ensures fit { result ≡ true → Fits count size heap }
    ensures large { result ≡ false → Fits count size heap → ⊥ }
{
    if count > 0xFBF_EF00 {
        return false;
    }
    if size > 0x3FFF_F000_0000 {
        return false;
    }
    heap <= 0x3FFF_F000_0000 - size
}

// Where the data begin in the file.
#[tactic(auto, unfolding(crate::specs::File::data_offset))]
fn offset_of(count: u64) -> u64
    requires { count < 0x1000_0000 }
    ensures { result ≡ data_offset count }
{
    (count + 0x10FF) / 0x1000 * 0x1000
}

#[tactic(auto, unfolding(crate::specs::File::data_offset, crate::specs::File::gap))]
fn gap_of(count: u64) -> u64
    requires { count < 0x1000_0000 }
    ensures { result ≡ gap count }
{
    (count + 0x10FF) / 0x1000 * 0x1000 - (count + 0x100)
}

// Code, gap and data, behind the head.
fn put_contents(
    file: &mut Vec<u8>,
    code: &[u8],
    content: &[u8],
    count: u64,
) -> Result<(), OutOfMemory>
    requires is { count ≡ length code.now }
    requires small { count < 0x1000_0000 }
    ensures { OnOk result
        (file.new.items ≡ file.old.items ++ (code.now ++ (spec.zeros (gap (length code.now)) ++ content.now))) }
{
    file.extend_from_slice(code)?;
    put_zeros(file, gap_of(count))?;
    file.extend_from_slice(content)?;
    Ok(())
}

// The file, where all has its place.
fn put_file(file: &mut Vec<u8>, code: &[u8], content: &[u8], heap: u64) -> Result<(), OutOfMemory>
    requires { Fits (length code.now) (length content.now) heap }
    ensures { OnOk result (file.new.items ≡ file.old.items ++ file_bytes code.now content.now heap) }
{
    let (count, size) = (code.len() as u64, content.len() as u64);
    put_head(file, count, offset_of(count), size, size + heap)?;
    put_contents(file, code, content, count)
}

/// An executable file for Linux: it begins with the code, and has the content as its data, with so many bytes of zeros
/// behind them in memory. `TooLarge` is answered only where they do not fit, and no file is made then.
pub fn write_file(
    alloc: Global,
    code: &[u8],
    content: &[u8],
    heap: u64,
) -> Result<Vec<u8>, FileError>
    ensures bytes { IfOk result (λ file. file.items ≡ file_bytes code.now content.now heap) }
    ensures loaded { IfOk result (λ file. IsLoaded code.now content.now heap file.items) }
    ensures fit { IfOk result (λ _. Fits (length code.now) (length content.now) heap) }
    ensures large { IfErr result
        (λ why. why ≡ FileError.TooLarge → Fits (length code.now) (length content.now) heap → ⊥) }
{
    if !fits(code.len() as u64, content.len() as u64, heap) {
        return Err(FileError::TooLarge);
    }
    let mut file = Vec::new(alloc);
    put_file(&mut file, code, content, heap)?;
    Ok(file)
}
