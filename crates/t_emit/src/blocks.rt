// Blocks are reserved with their headers, and filled when their code is whole.
ghost use Rattle.std.specs.Prelude.{◌≡◌, ◌<◌, ◌++◌, ◌∷◌, [], OnOk, length};
ghost use Rattle.t_types.specs.Read.{file};
ghost use Rattle.t_terms.specs.Tree.{Ends};
ghost use Rattle.t_terms.specs.Read.{blocks_of, end_of};
ghost use Rattle.t_emit.specs.Code.{onto, reserved, fill};

use crate::code::NOWHERE;
use idx_core::{OutOfMemory, Span};
use std::alloc::Global;
use t_terms::{Block, End, Instr};
use t_types::{RegFile, TType};

/// A block without its code, at the end. An error is want of memory.
pub fn reserve(
    alloc: Global,
    out: &mut Vec<Block>,
    owes: u64,
    file_regs: Vec<(u64, TType)>,
) -> Result<(), OutOfMemory>
    ensures { OnOk result (blocks_of out.new.items ≡ blocks_of out.old.items ++ reserved owes (file file_regs.items)
        ∷ []) }
{
    out.push(Block {
        name: NOWHERE,
        owes,
        regs: RegFile { regs: file_regs },
        body: Vec::new(alloc),
        end: End::Halt,
        end_span: NOWHERE,
    })?;
    Ok(())
}

/// A block's code, where it is whole.
pub fn close(out: &mut Vec<Block>, at: usize, code: Vec<(Instr, Span)>, end: End)
    requires { at < length out.old.items }
    ensures filled { blocks_of out.new.items ≡ fill at (onto code.items (Ends (end_of end))) (blocks_of out.old.items) }
    ensures same { length out.new.items ≡ length out.old.items }
{
    let block = &mut out[at];
    block.body = code;
    block.end = end;
}
