// Where the blocks of a program stand.
ghost use Rattle.std.specs.Prelude.{◌≡◌, ◌≤◌, ◌^◌, [], length, IfOk};
ghost use Rattle.x_laws.specs.Code as spec_code;
ghost use Rattle.x_laws.specs.Core.{bytes_all};
ghost use Rattle.x_laws.specs.Layout.{size};
ghost use Rattle.x_pass.specs.Homes.{home};
ghost use Rattle.x_pass.specs.Layout.{place_of, starts, stop, AreAllShort};
ghost use Rattle.x_pass.specs.Short.{AreShort, HasShortOffset};
ghost use Rattle.w_terms.specs.Read as read;

use crate::branch::emit;
use crate::emission::emit_end;
use idx_core::{OutOfMemory, sum};
use std::alloc::Global;
use w_terms::{WBlock, WEnd, WInstr};

/// Where the blocks stand, in their order, and where the code ends.
#[derive(Drop)]
pub struct Labels {
    pub places: Vec<u64>,
    pub end: u64,
}

/// The place of a label. One without a block stands at the code's end.
pub fn place_at(labels: &Labels, l: u64) -> u64
    ensures { result ≡ place_of labels.now l }
{
    match labels.places.get(l as usize) {
        Some(place) => *place,
        None => labels.end,
    }
}

// Labels that all stand at 0. No size hangs on a place, so these do where code is only measured.
fn no_labels(alloc: Global) -> Labels
    ensures places { result.places.items ≡ [] }
    ensures end { result.end ≡ 0 }
{
    Labels {
        places: Vec::new(alloc),
        end: 0,
    }
}

// How many bytes an instruction takes.
#[tactic(auto, using(crate::proofs::Measures::at_zero))]
fn instr_size(alloc: Global, instr: &WInstr) -> Result<u64, OutOfMemory>
    requires { HasShortOffset (read.instr instr.now) }
    ensures { IfOk result
        (λ k. k ≡ length (bytes_all (spec_code.instr_code home (λ l. 0) 0 (read.instr instr.now)))) }
{
    let labels = no_labels(alloc);
    let mut code = Vec::new(alloc);
    emit(alloc, &mut code, 0, &labels, instr)?;
    Ok(code.len() as u64)
}

// How many bytes the end of a block takes.
#[tactic(auto, using(crate::proofs::Measures::at_zero))]
fn end_size(alloc: Global, end: &WEnd) -> Result<u64, OutOfMemory>
    ensures { IfOk result (λ k. k ≡ size home (read.end_of end.now)) }
{
    let labels = no_labels(alloc);
    let mut code = Vec::new(alloc);
    emit_end(alloc, &mut code, 0, &labels, end)?;
    Ok(code.len() as u64)
}

/// How many bytes a block takes. An error is want of memory.
pub fn block_size(alloc: Global, block: &WBlock) -> Result<u64, OutOfMemory>
    requires { AreShort block.now.body.items }
    ensures { IfOk result (λ k. k ≡ size home (read.block block.now)) }
{
    let body = block.body.as_slice();
    let mut all = 0;
    for instr in body {
        let size = instr_size(alloc, instr)?;
        all = sum(all, size)?;
    }
    let last = end_size(alloc, &block.end)?;
    sum(all, last)
}

/// Where blocks stand of which the first is at the address `base`. An error is want of memory.
pub fn labels_of(alloc: Global, blocks: &[WBlock], base: u64) -> Result<Labels, OutOfMemory>
    requires { AreAllShort blocks.now }
    ensures places { IfOk result (λ labels. labels.places.items ≡ starts base blocks.now) }
    ensures end { IfOk result (λ labels. labels.end ≡ stop base blocks.now) }
{
    let mut places = Vec::new(alloc);
    let mut end = base;
    for block in blocks {
        let size = block_size(alloc, block)?;
        places.push(end)?;
        end = sum(end, size)?;
    }
    Ok(Labels { places, end })
}
