// The code of a block.
ghost use Rattle.std.specs.Prelude.{◌≡◌, ℕ, ◌<◌, ◌^◌, OnOk, IfOk, length};
ghost use Rattle.t_types.specs.Tree.{TFile};
ghost use Rattle.t_types.specs.Read.{file_tree};
ghost use Rattle.t_terms.specs.Tree.{Ends};
ghost use Rattle.t_terms.specs.Read.{end_of as end_tree, block as block_tree};
ghost use Rattle.t_terms.specs.ReadProgram.{program as program_tree};
ghost use Rattle.t_spill_rules.specs.Spill.{sp_block, stores};
ghost use Rattle.t_spill_code.specs.Onto.{onto};
ghost use Rattle.t_spill.specs.Moving.{Before, Starts, Reaches, whole};
ghost use Rattle.t_spill.specs.Ready.{BlockReady};
ghost use Rattle.t_spill.specs.Tails.{tail_of};

use crate::ahead::Ahead;
use crate::finish::Code;
use crate::known::Known;
use crate::stepping::{Walk, spill_instr};
use crate::subject::subject_of_end;
use crate::typing::target_of_end;
use crate::wanting::wants_of;
use crate::way::{defined, stores_into};
use idx_core::{OutOfMemory, Span};
use std::alloc::Global;
use t_spill_code::{Body, Homes, NOWHERE, Split, emit_end, high_part, spilled_file};
use t_terms::{Block, End, Instr, TProgram};
use t_types::{RegFile, copy_file};

// At the start of a block, which wants these registers in their order.
fn start_of(
    alloc: Global,
    split: Split,
    start: &RegFile,
    wants: &[u64],
) -> Result<Walk, OutOfMemory>
    ensures { IfOk result (λ w. Starts split.low (file_tree start.now) wants.now w) }
{
    let known = Known::of(alloc, &start.regs)?;
    let ahead = Ahead::of(alloc, wants)?;
    let copied = copy_file(alloc, start)?;
    let high = high_part(alloc, split, copied.regs)?;
    let homes = Homes::gathered(alloc, split, &high)?;
    let body = Body::new(alloc);
    let code = Code { homes, body };
    Ok(Walk { known, ahead, code })
}

// Whether the instruction at a place of a body stores into the tuple of a register; there may be none.
fn stores_at(body: &[(Instr, Span)], k: usize, rd: u64) -> bool
    ensures { (end : End) → result ≡ stores rd (tail_of body.now end k) }
{
    if k < body.len() {
        stores_into(&body[k].0, rd)
    } else {
        false
    }
}

// The code of a body.
fn spill_body(
    alloc: Global,
    program: &TProgram,
    walk: &mut Walk,
    body: &[(Instr, Span)],
    end: &End,
) -> Result<(), OutOfMemory>
    requires few { length (program_tree program.now).blocks < 2 ^ 64 }
    requires stands { (n : ℕ) × (y : TFile) × (x : TFile)
        × Before (program_tree program.now) n y x walk.old (tail_of body.now end.now 0) }
    ensures { OnOk result (Reaches (program_tree program.now) walk.old (tail_of body.now end.now 0) walk.new
        (Ends (end_tree end.now))) }
{
    for k in 0..body.len() {
        let i = &body[k].0;
        let stored = stores_at(body, k + 1, defined(i));
        spill_instr(alloc, program, walk, i, stored)?;
    }
    Ok(())
}

// The end of a block, behind its body.
fn spill_end(
    alloc: Global,
    program: &TProgram,
    walk: &mut Walk,
    end: &End,
) -> Result<End, OutOfMemory>
    requires few { length (program_tree program.now).blocks < 2 ^ 64 }
    requires stands { (n : ℕ) × (y : TFile) × (x : TFile)
        × Before (program_tree program.now) n y x walk.old (Ends (end_tree end.now)) }
    ensures { IfOk result (λ last. (n : ℕ) (y : TFile) (x : TFile) →
        Before (program_tree program.now) n y x walk.old (Ends (end_tree end.now)) →
        onto walk.new.code.body.done.items (Ends (end_tree last))
        ≡ whole (program_tree program.now) x walk.old (Ends (end_tree end.now))) }
{
    let split = walk.code.homes.split;
    let read = walk.known.part(alloc, subject_of_end(end))?;
    let entered = target_of_end(alloc, program, &read.regs, end)?;
    let high = high_part(alloc, split, entered)?;
    let last = emit_end(
        alloc,
        &mut walk.code.body.tail,
        &walk.code.homes,
        end,
        &high,
    )?;
    walk.code.body.close(alloc, split)?;
    Ok(last)
}

// The code of a body with its end.
fn spilled_code(
    alloc: Global,
    program: &TProgram,
    split: Split,
    block: &Block,
) -> Result<(Vec<(Instr, Span)>, End), OutOfMemory>
    requires ready { BlockReady (program_tree program.now) (block_tree block.now) }
    requires few { length (program_tree program.now).blocks < 2 ^ 64 }
    ensures { IfOk result (λ r. onto r.0.items (Ends (end_tree r.1))
        ≡ (sp_block split.low (program_tree program.now) (block_tree block.now)).code) }
{
    let body = block.body.as_slice();
    let wants = wants_of(alloc, program, &block.regs, body, &block.end)?;
    let mut walk = start_of(alloc, split, &block.regs, &wants)?;
    spill_body(alloc, program, &mut walk, body, &block.end)?;
    let end = spill_end(alloc, program, &mut walk, &block.end)?;
    let Walk { code, .. } = walk;
    let Code { body, .. } = code;
    let Body { done, .. } = body;
    Ok((done, end))
}

/// A block.
pub fn spilled_block(
    alloc: Global,
    program: &TProgram,
    split: Split,
    block: &Block,
) -> Result<Block, OutOfMemory>
    requires ready { BlockReady (program_tree program.now) (block_tree block.now) }
    requires few { length (program_tree program.now).blocks < 2 ^ 64 }
    ensures { IfOk result (λ r.
        block_tree r ≡ sp_block split.low (program_tree program.now) (block_tree block.now)) }
{
    let (body, end) = spilled_code(alloc, program, split, block)?;
    let regs = spilled_file(alloc, split, &block.regs.regs)?;
    Ok(Block {
        name: NOWHERE,
        owes: block.owes,
        regs,
        body,
        end,
        end_span: NOWHERE,
    })
}
