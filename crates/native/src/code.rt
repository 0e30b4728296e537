// The native code of a program.
ghost use Rattle.std.specs.Prelude.{◌≡◌, ◌%◌, ◌<◌, IfOk, IfErr};
ghost use Rattle.t_terms.specs.ReadProgram.{program as program_tree};
ghost use Rattle.t_check.specs.Checked.{checked_program};
ghost use Rattle.native.specs.Native.{IsNative, IsInBounds};
ghost use Rattle.native.specs.Made.{IsMadeOf};
ghost use Rattle.native.specs.Listing.{native_words, HasNativeCode};
ghost use Rattle.w_terms.specs.Read.{program as word_program};
ghost use Rattle.x_terms.specs.Elf.{image};

use crate::error::NativeError;
use std::alloc::Global;
use t_check::Checked;
use t_terms::TProgram;
use w_gen::registers;
use w_laws::{each_built_keeps_meaning, few_tuples_are_enough};
use w_terms::WProgram;
use x_laws::{compiled_code_behaves, compiled_code_has_places};
use x_program::executable;

// The word code of a program, which has so many registers, and its file.
#[derive(Drop)]
pub(crate) struct Made {
    pub words: WProgram,
    pub registers: u64,
    pub file: Vec<u8>,
}

// The word code and the file of a program. The runtime has 16 registers of its own, and each register has 8 bytes in
// front of the program's memory.
pub(crate) fn made_of(alloc: Global, program: &TProgram, heap: u64) -> Result<Made, NativeError>
    requires pages { heap % 4096 ≡ 0 }
    requires some { 0 < heap }
    ensures made { IfOk result (λ made. IsMadeOf heap (program_tree program.now) made.file.items) }
    ensures words { IfOk result (λ made. word_program made.words ≡ native_words heap (program_tree program.now)) }
    ensures large { IfErr result
        (λ why. why ≡ NativeError.TooLarge → IsInBounds heap (program_tree program.now) → ⊥) }
{
    let named = registers(program)?;
    let many = named + 16;
    let base = 0x1000_0000 + 8 * many;
    let words = w_gen::program(alloc, program, base, heap)?;
    let file = executable(alloc, &words, many)?;
    Ok(Made {
        words,
        registers: many,
        file,
    })
}

// The file of a program.
fn file_of(alloc: Global, program: &TProgram, heap: u64) -> Result<Vec<u8>, NativeError>
    requires pages { heap % 4096 ≡ 0 }
    requires some { 0 < heap }
    ensures made { IfOk result (λ file. IsMadeOf heap (program_tree program.now) file.items) }
    ensures large { IfErr result
        (λ why. why ≡ NativeError.TooLarge → IsInBounds heap (program_tree program.now) → ⊥) }
{
    let made = made_of(alloc, program, heap)?;
    let Made {
        words: _,
        registers: _,
        file,
    } = made;
    Ok(file)
}

/// An executable file for Linux on x86-64 of a checked program, with a heap of so many bytes. Run, it shows the integer
/// with which the program halts and ends with 0, with 6 where the system does not take that line, or with 7 for want of
/// memory; it goes on for ever where the program does. `TooLarge` is answered where the program is out of bounds.
pub fn native_code(alloc: Global, checked: &Checked, heap: u64) -> Result<Vec<u8>, NativeError>
    requires pages { heap % 4096 ≡ 0 }
    requires some { 0 < heap }
    ensures native { IfOk result
        (λ file. ∥ IsNative heap (program_tree (checked_program checked.now)) file.items ∥₁) }
    ensures code { IfOk result
        (λ file. HasNativeCode heap (program_tree (checked_program checked.now)) (image file.items)) }
    ensures fits { IfOk result (λ _. IsInBounds heap (program_tree (checked_program checked.now))) }
    ensures large { IfErr result
        (λ why. why ≡ NativeError.TooLarge → IsInBounds heap (program_tree (checked_program checked.now)) → ⊥) }
{
    each_built_keeps_meaning();
    few_tuples_are_enough();
    compiled_code_behaves();
    compiled_code_has_places();
    let file = file_of(alloc, checked.program(), heap)?;
    Ok(file)
}
