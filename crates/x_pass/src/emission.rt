// The bytes of a block.
ghost use Rattle.std.specs.Prelude.{◌≡◌, ◌≤◌, ◌+◌, ◌^◌, ◌++◌, length, OnOk};
ghost use Rattle.x_laws.specs.Code as spec_code;
ghost use Rattle.x_laws.specs.Core.{bytes_all};
ghost use Rattle.x_pass.specs.Homes.{home};
ghost use Rattle.x_pass.specs.Layout.{AreNear, place_of};
ghost use Rattle.x_pass.specs.Short.{AreShort};
ghost use Rattle.w_terms.specs.Read as read;

use crate::blocks::encode_all;
use crate::branch::{emit, put_end};
use crate::layout::Labels;
use idx_core::OutOfMemory;
use std::alloc::Global;
use w_terms::{WBlock, WEnd};

pub(crate) fn emit_end(
    alloc: Global,
    code: &mut Vec<u8>,
    base: u64,
    labels: &Labels,
    end: &WEnd,
) -> Result<(), OutOfMemory>
    requires here { base + length code.old.items ≤ 2 ^ 28 }
    requires near { AreNear labels.now }
    ensures { OnOk result
        (code.new.items
        ≡ code.old.items
        ++ bytes_all
        (spec_code.seq_code home (place_of labels.now) (base + length code.old.items) (read.end_of end.now))) }
{
    let at = base + code.len() as u64;
    let mut out = Vec::new(alloc);
    put_end(&mut out, labels, at, end)?;
    encode_all(code, &out)
}

/// Puts the bytes of a block of word code at the end of the code, which begins at the address `base`. An error is want
/// of memory.
pub fn emit_block(
    alloc: Global,
    code: &mut Vec<u8>,
    base: u64,
    labels: &Labels,
    block: &WBlock,
) -> Result<(), OutOfMemory>
    requires room { base + length code.old.items
        + length (bytes_all (spec_code.seq_code home (place_of labels.now) (base + length code.old.items)
        (read.block block.now))) ≤ 2 ^ 28 }
    requires near { AreNear labels.now }
    requires short { AreShort block.now.body.items }
    ensures { OnOk result
        (code.new.items
        ≡ code.old.items
        ++ bytes_all
        (spec_code.seq_code home (place_of labels.now) (base + length code.old.items) (read.block block.now))) }
{
    let body = block.body.as_slice();
    for instr in body {
        emit(alloc, code, base, labels, instr)?;
    }
    emit_end(alloc, code, base, labels, &block.end)
}
