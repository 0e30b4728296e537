// The bytes of a program.
ghost use Rattle.std.specs.Prelude.{◌≡◌, ◌≤◌, ◌+◌, ◌^◌, ◌++◌, length, map, OnOk, IfOk};
ghost use Rattle.x_laws.specs.Layout.{code_from, program_code};
ghost use Rattle.x_pass.specs.Homes.{home};
ghost use Rattle.x_pass.specs.Layout.{AreAllShort, AreNear, AreLaid, place_of, stop};
ghost use Rattle.w_terms.specs.Read as read;

use crate::emission::emit_block;
use crate::layout::Labels;
use idx_core::OutOfMemory;
use std::alloc::Global;
use w_terms::WBlock;

// Puts the bytes of blocks at the end of the code, which begins at the address `base`.
fn emit_blocks(
    alloc: Global,
    code: &mut Vec<u8>,
    base: u64,
    labels: &Labels,
    blocks: &[WBlock],
) -> Result<(), OutOfMemory>
    requires room { base + length code.old.items
        + length (code_from home (place_of labels.now) (base + length code.old.items) (map read.block blocks.now))
        ≤ 2 ^ 28 }
    requires near { AreNear labels.now }
    requires short { AreAllShort blocks.now }
    ensures { OnOk result
        (code.new.items
        ≡ code.old.items
        ++ code_from home (place_of labels.now) (base + length code.old.items) (map read.block blocks.now)) }
{
    for block in blocks {
        emit_block(alloc, code, base, labels, block)?;
    }
    Ok(())
}

/// The code of blocks that stand where the labels say, the first at the address `base`. An error is want of memory.
pub fn code_of(
    alloc: Global,
    base: u64,
    labels: &Labels,
    blocks: &[WBlock],
) -> Result<Vec<u8>, OutOfMemory>
    requires laid { AreLaid base blocks.now labels.now }
    requires near { stop base blocks.now ≤ 2 ^ 28 }
    requires short { AreAllShort blocks.now }
    ensures { IfOk result (λ code. code.items ≡ program_code home base (map read.block blocks.now)) }
{
    let mut code = Vec::new(alloc);
    emit_blocks(alloc, &mut code, base, labels, blocks)?;
    Ok(code)
}
