// Shift and put of the types in bodies and blocks.
ghost use Rattle.std.specs.Prelude.{◌≡◌, ℕ, ◌+◌, ◌<◌, ◌≤◌, ◌↔◌, IfOk, IsTrue};
ghost use Rattle.idx_core.specs.Over.{IsWord, ShiftFitsAt, PutFitsAt, BelowAt, AnyDepth, shifted, putted};
ghost use Rattle.idx_core.specs.Bound.{Tells};
ghost use Rattle.t_types.specs.Read.{tree};
ghost use Rattle.t_types.specs.Tree.{Ty, VarTy, over, each};
ghost use Rattle.t_terms.specs.Read.{body, end_of, spanned};
ghost use Rattle.t_terms.specs.Spanned.{SBlock, over_body, over_spanned, each_body, each_spanned, body_depth};
ghost use Rattle.t_terms.specs.Spanned.{BodyBelow};

use crate::block::Block;
use crate::instr::{End, Instr};
use crate::walks::{
    bound_after, end_below, instr_below, names_after, put_end, put_instr, shift_end, shift_instr,
};
use idx_core::{OutOfMemory, Scoped, Span, deeper};
use std::alloc::Global;
use t_types::{RegFile, TType, file_below, put_regs};

// A body, and the number of type names after it.
#[derive(Drop)]
struct Walked {
    body: Vec<(Instr, Span)>,
    depth: u64,
}

fn shift_body(
    alloc: Global,
    entries: &[(Instr, Span)],
    by: u64,
    cut: u64,
) -> Result<Walked, OutOfMemory>
    requires start { IsWord cut }
    requires fits { each_body (ShiftFitsAt by) IsWord cut (body entries.now) }
    ensures made { IfOk result (λ r. body r.body.items ≡ over_body (shifted VarTy by) cut (body entries.now)) }
    ensures depth { IfOk result (λ r. r.depth ≡ body_depth (body entries.now) cut) }
{
    let mut made = Vec::with_capacity(alloc, entries.len())?;
    let mut depth = cut;
    for entry in entries {
        let i = shift_instr(alloc, &entry.0, by, depth)?;
        made.push((i, entry.1))?;
        depth = names_after(&entry.0, depth);
    }
    Ok(Walked { body: made, depth })
}

fn put_body(
    alloc: Global,
    entries: &[(Instr, Span)],
    at: u64,
    start: u64,
    what: &TType,
) -> Result<Walked, OutOfMemory>
    requires deep { at ≤ start }
    requires start { IsWord start }
    requires fits { each_body (PutFitsAt each at (tree what.now)) IsWord start (body entries.now) }
    ensures made { IfOk result (λ r.
        body r.body.items ≡ over_body (putted VarTy over at (tree what.now)) start (body entries.now)) }
    ensures depth { IfOk result (λ r. r.depth ≡ body_depth (body entries.now) start) }
    ensures below { IfOk result (λ r. at ≤ r.depth) }
{
    let mut made = Vec::with_capacity(alloc, entries.len())?;
    let mut depth = start;
    for entry in entries {
        let i = put_instr(alloc, &entry.0, at, depth, what)?;
        made.push((i, entry.1))?;
        depth = names_after(&entry.0, depth);
    }
    Ok(Walked { body: made, depth })
}

// Whether each free index of a body and its end is less than the bound, where `None` is past every index.
fn body_below(entries: &[(Instr, Span)], last: &End, bound: Option<u64>) -> bool
    ensures { Tells bound (λ n. BodyBelow n (body entries.now) (end_of last.now)) result }
{
    let mut here = bound;
    for entry in entries {
        if !instr_below(&entry.0, here) {
            return false;
        }
        here = bound_after(&entry.0, here);
    }
    end_below(last, here)
}

pub(crate) fn shift_block(alloc: Global, b: &Block, by: u64, cut: u64) -> Result<Block, OutOfMemory>
    requires { each_spanned (ShiftFitsAt by) IsWord cut (spanned b.now) }
    ensures { IfOk result (λ r. spanned r ≡ over_spanned (shifted VarTy by) cut (spanned b.now)) }
{
    let regs = b.regs.shift(alloc, by, cut + b.owes)?;
    let walked = shift_body(alloc, &b.body, by, cut + b.owes)?;
    let end = shift_end(alloc, &b.end, by, walked.depth)?;
    Ok(Block {
        name: b.name,
        owes: b.owes,
        regs,
        body: walked.body,
        end,
        end_span: b.end_span,
    })
}

pub(crate) fn put_block(
    alloc: Global,
    b: &Block,
    at: u64,
    what: &TType,
) -> Result<Block, OutOfMemory>
    requires { each_spanned (PutFitsAt each at (tree what.now)) IsWord at (spanned b.now) }
    ensures { IfOk result (λ r. spanned r ≡ over_spanned (putted VarTy over at (tree what.now)) at (spanned b.now)) }
{
    let regs = put_regs(alloc, &b.regs.regs, at, at + b.owes, what)?;
    let walked = put_body(alloc, &b.body, at, at + b.owes, what)?;
    let end = put_end(alloc, &b.end, at, walked.depth, what)?;
    Ok(Block {
        name: b.name,
        owes: b.owes,
        regs: RegFile { regs },
        body: walked.body,
        end,
        end_span: b.end_span,
    })
}

pub(crate) fn block_below(b: &Block, n: u64) -> bool
    ensures { IsTrue result ↔ each_spanned BelowAt AnyDepth n (spanned b.now) }
{
    let bound = deeper(Some(n), b.owes);
    file_below(&b.regs, bound) && body_below(&b.body, &b.end, bound)
}
