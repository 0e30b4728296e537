// The listing of the native code of a program.
ghost use Rattle.std.specs.Prelude.{◌≡◌, ◌%◌, ◌<◌, IfOk, IfErr};
ghost use Rattle.t_terms.specs.ReadProgram.{program as program_tree};
ghost use Rattle.t_check.specs.Checked.{checked_program};
ghost use Rattle.native.specs.Native.{IsInBounds};
ghost use Rattle.native.specs.Listing.{IsNativeListing};

use crate::code::made_of;
use crate::error::NativeError;
use std::alloc::Global;
use t_check::Checked;
use t_terms::TProgram;
use x_listing::{listing_of, notes_of};

// The listing of a program. Its file is made, so it has room.
fn page_of(alloc: Global, program: &TProgram, heap: u64) -> Result<Vec<u8>, NativeError>
    requires pages { heap % 4096 ≡ 0 }
    requires some { 0 < heap }
    ensures listing { IfOk result (λ page. IsNativeListing heap (program_tree program.now) page.items) }
    ensures fits { IfOk result (λ _. IsInBounds heap (program_tree program.now)) }
    ensures large { IfErr result
        (λ why. why ≡ NativeError.TooLarge → IsInBounds heap (program_tree program.now) → ⊥) }
{
    let made = made_of(alloc, program, heap)?;
    let notes = notes_of(alloc, &program.blocks)?;
    let page = listing_of(alloc, &made.words, made.registers, &notes)?;
    Ok(page)
}

/// The listing of the native code of a checked program, with a heap of so many bytes: the parts of the file; and for each
/// block of word code its address and its name, and its instructions, each with its code, by address, bytes and text.
/// In front of the code of an instruction of the program that instruction stands, without types. `TooLarge` is answered
/// where the program is out of bounds.
pub fn native_listing(alloc: Global, checked: &Checked, heap: u64) -> Result<Vec<u8>, NativeError>
    requires pages { heap % 4096 ≡ 0 }
    requires some { 0 < heap }
    ensures listing { IfOk result
        (λ page. IsNativeListing heap (program_tree (checked_program checked.now)) page.items) }
    ensures fits { IfOk result (λ _. IsInBounds heap (program_tree (checked_program checked.now))) }
    ensures large { IfErr result
        (λ why. why ≡ NativeError.TooLarge → IsInBounds heap (program_tree (checked_program checked.now)) → ⊥) }
{
    let page = page_of(alloc, checked.program(), heap)?;
    Ok(page)
}
