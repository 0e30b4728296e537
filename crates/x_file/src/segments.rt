// The header and the program headers.
ghost use Rattle.std.specs.Prelude.{◌≡◌, ◌≤◌, ◌<◌, ◌+◌, ◌++◌, OnOk, replicate};
ghost use Rattle.x_file.specs.File as spec;

use idx_core::OutOfMemory;

pub(crate) fn put_word(file: &mut Vec<u8>, word: u64) -> Result<(), OutOfMemory>
    ensures { OnOk result (file.new.items ≡ file.old.items ++ spec.word_bytes word) }
{
    file.extend_from_slice(&word.to_le_bytes())?;
    Ok(())
}

fn put_half(file: &mut Vec<u8>, half: u32) -> Result<(), OutOfMemory>
    ensures { OnOk result (file.new.items ≡ file.old.items ++ spec.half_bytes half) }
{
    file.extend_from_slice(&half.to_le_bytes())?;
    Ok(())
}

fn put_header(file: &mut Vec<u8>) -> Result<(), OutOfMemory>
    ensures { OnOk result (file.new.items ≡ file.old.items ++ spec.file_header) }
{
    file.extend_from_slice(&[
        0x7F, 0x45, 0x4C, 0x46, 2, 1, 1, 0, 0, 0, 0, 0, 0, 0, 0, 0, 2, 0, 62, 0, 1, 0, 0, 0, 0x00,
        0x01, 0x40, 0x00, 0, 0, 0, 0, 64, 0, 0, 0, 0, 0, 0, 0, 0, 0, 0, 0, 0, 0, 0, 0, 0, 0, 0, 0,
        64, 0, 56, 0, 3, 0, 64, 0, 0, 0, 0, 0,
    ])?;
    Ok(())
}

fn put_place(file: &mut Vec<u8>, offset: u64, address: u64) -> Result<(), OutOfMemory>
    ensures { OnOk result (file.new.items ≡ file.old.items ++ spec.place_bytes offset address) }
{
    put_word(file, offset)?;
    put_word(file, address)?;
    put_word(file, address)
}

fn put_size(file: &mut Vec<u8>, in_file: u64, in_memory: u64) -> Result<(), OutOfMemory>
    ensures { OnOk result (file.new.items ≡ file.old.items ++ spec.size_bytes in_file in_memory) }
{
    put_word(file, in_file)?;
    put_word(file, in_memory)?;
    put_word(file, 0x1000)
}

fn put_code_segment(file: &mut Vec<u8>, count: u64) -> Result<(), OutOfMemory>
    ensures { OnOk result (file.new.items ≡ file.old.items ++ spec.code_segment count) }
{
    put_half(file, 1)?;
    put_half(file, 5)?;
    put_place(file, 0x100, 0x40_0100)?;
    put_size(file, count, count)
}

fn put_data_segment(
    file: &mut Vec<u8>,
    offset: u64,
    in_file: u64,
    in_memory: u64,
) -> Result<(), OutOfMemory>
    ensures { OnOk result (file.new.items ≡ file.old.items ++ spec.data_segment offset in_file in_memory) }
{
    put_half(file, 1)?;
    put_half(file, 6)?;
    put_place(file, offset, 0x1000_0000)?;
    put_size(file, in_file, in_memory)
}

fn put_stack_segment(file: &mut Vec<u8>) -> Result<(), OutOfMemory>
    ensures { OnOk result (file.new.items ≡ file.old.items ++ spec.stack_segment) }
{
    put_half(file, 0x6474_E551)?;
    put_half(file, 6)?;
    put_place(file, 0, 0)?;
    put_size(file, 0, 0)
}

pub(crate) fn put_zeros(file: &mut Vec<u8>, count: u64) -> Result<(), OutOfMemory>
    ensures { OnOk result (file.new.items ≡ file.old.items ++ spec.zeros count) }
{
    for _ in 0..count {
        file.push(0)?;
    }
    Ok(())
}

// The three program headers.
fn put_segments(
    file: &mut Vec<u8>,
    count: u64,
    offset: u64,
    in_file: u64,
    in_memory: u64,
) -> Result<(), OutOfMemory>
    ensures { OnOk result (file.new.items ≡ file.old.items ++ spec.segments count offset in_file in_memory) }
{
    put_code_segment(file, count)?;
    put_data_segment(file, offset, in_file, in_memory)?;
    put_stack_segment(file)
}

// All up to the code, which has so many bytes.
pub(crate) fn put_head(
    file: &mut Vec<u8>,
    count: u64,
    offset: u64,
    in_file: u64,
    in_memory: u64,
) -> Result<(), OutOfMemory>
    ensures { OnOk result (file.new.items ≡ file.old.items ++ spec.head count offset in_file in_memory) }
{
    put_header(file)?;
    put_segments(file, count, offset, in_file, in_memory)?;
    put_zeros(file, 24)
}
