// The file of a program.
ghost use Rattle.std.specs.Prelude.{true, false, ◌≡◌, ◌≤◌, ◌-◌, ◌*◌, ◌+◌, ◌^◌, IfOk, IfErr, map};
ghost use Rattle.x_file.specs.Loaded.{words_bytes, AreWords};
ghost use Rattle.x_pass.specs.Homes.{most};
ghost use Rattle.x_pass.specs.Layout.{place_of, stop, AreAllShort, AreLaid};
ghost use Rattle.x_pass.specs.Short.{AreFine, AreSeqs};
ghost use Rattle.x_program.specs.Made.{base_of, data_words, program_of, HasRoom, IsMade};
ghost use Rattle.w_terms.specs.Read as read;

use crate::content::words_of;
use idx_core::OutOfMemory;
use std::alloc::Global;
use w_terms::{WBlock, WDatum, WProgram};
use x_file::{FileError, put_words, write_file};
use x_pass::{Labels, are_fine, code_of, labels_of};

/// Why there is no file.
#[derive(Clone, Copy, Debug, PartialEq, Eq)]
pub enum Refused {
    /// Memory was wanted and not had.
    OutOfMemory,
    /// The program has too many registers, or an instruction that has no code; or code or memory have no room.
    TooLarge,
}

impl From<OutOfMemory> for Refused {
    ghost use Rattle.std.specs.Prelude.{◌≡◌};
    ghost use Rattle.x_program.specs.declared.file.Refused.TheVariants as why;

    ghost from_gives = { λ _ e. e ≡ why.OutOfMemory };

    fn from(_: OutOfMemory) -> Refused {
        Refused::OutOfMemory
    }
}

impl From<FileError> for Refused {
    ghost use Rattle.std.specs.Prelude.{◌≡◌};
    ghost use Rattle.x_file.specs.declared.writing.FileError.TheVariants as of;
    ghost use Rattle.x_program.specs.declared.file.Refused.TheVariants as why;

    ghost from_gives = { λ given e. e ≡ why.TooLarge → given ≡ of.TooLarge };

    fn from(error: FileError) -> Refused {
        match error {
            FileError::OutOfMemory => Refused::OutOfMemory,
            FileError::TooLarge => Refused::TooLarge,
        }
    }
}

// How many bytes of zeros there are behind the words that are given.
fn heap_of(size: u64, count: u64) -> Result<u64, Refused>
    ensures is { IfOk result (λ heap. heap ≡ 8 * (size - count)) }
    ensures large { IfErr result (λ _. 8 * size ≤ 2 ^ 46 → ⊥) }
{
    if size > 0x800_0000_0000 {
        return Err(Refused::TooLarge);
    }
    Ok(8 * size.saturating_sub(count))
}

// The data of the file as bytes.
fn content_of(
    alloc: Global,
    registers: u64,
    labels: &Labels,
    image: &[WDatum],
) -> Result<Vec<u8>, OutOfMemory>
    ensures bytes { IfOk result
        (λ content. content.items ≡ words_bytes (data_words (place_of labels.now) registers image.now)) }
    ensures words { IfOk result (λ _. AreWords (data_words (place_of labels.now) registers image.now)) }
{
    let words = words_of(alloc, registers, labels, image)?;
    let mut content = Vec::new(alloc);
    put_words(&mut content, &words)?;
    Ok(content)
}

// Whether so many registers have homes and all blocks have code.
fn has_code(registers: u64, blocks: &[WBlock]) -> bool
    ensures low { result ≡ true → registers ≤ most }
    ensures fine { result ≡ true → AreFine registers blocks.now }
    ensures large { result ≡ false → registers ≤ most → AreSeqs registers (map read.block blocks.now) → ⊥ }
{
    if registers > 0xE00_0000 {
        return false;
    }
    are_fine(registers, blocks)
}

// Where the blocks stand, if the code ends in front of the data.
fn laid_out(alloc: Global, blocks: &[WBlock]) -> Result<Labels, Refused>
    requires { AreAllShort blocks.now }
    ensures laid { IfOk result (λ labels. AreLaid 0x400100 blocks.now labels) }
    ensures near { IfOk result (λ labels. stop 0x400100 blocks.now ≤ 2 ^ 28) }
    ensures large { IfErr result (λ why. why ≡ Refused.TooLarge → stop 0x400100 blocks.now ≤ 0xFFFF000 → ⊥) }
{
    let labels = labels_of(alloc, blocks, 0x40_0100)?;
    if labels.end > 0xFFF_F000 {
        return Err(Refused::TooLarge);
    }
    Ok(labels)
}

// The file of blocks, and of the words that are given of so many.
fn file_of(
    alloc: Global,
    registers: u64,
    blocks: &[WBlock],
    image: &[WDatum],
    size: u64,
) -> Result<Vec<u8>, Refused>
    ensures made { IfOk result (λ file. IsMade registers (program_of registers blocks.now image.now size) file.items) }
    ensures large { IfErr result
        (λ why. why ≡ Refused.TooLarge → HasRoom registers (program_of registers blocks.now image.now size) → ⊥) }
{
    if !has_code(registers, blocks) {
        return Err(Refused::TooLarge);
    }
    let labels = laid_out(alloc, blocks)?;
    let code = code_of(alloc, 0x40_0100, &labels, blocks)?;
    let content = content_of(alloc, registers, &labels, image)?;
    let heap = heap_of(size, image.len() as u64)?;
    let file = write_file(alloc, &code, &content, heap)?;
    Ok(file)
}

/// An executable file for Linux of a program of word code of which so many registers have homes. The program's memory
/// begins behind the words of these, of which each is 8 bytes long. `TooLarge` is answered only where it has no room.
pub fn executable(alloc: Global, program: &WProgram, registers: u64) -> Result<Vec<u8>, Refused>
    requires { program.now.base ≡ base_of registers }
    ensures made { IfOk result (λ file. IsMade registers (read.program program.now) file.items) }
    ensures large { IfErr result
        (λ why. why ≡ Refused.TooLarge → HasRoom registers (read.program program.now) → ⊥) }
{
    file_of(
        alloc,
        registers,
        &program.blocks,
        &program.image,
        program.size,
    )
}
