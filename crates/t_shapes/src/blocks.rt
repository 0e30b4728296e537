// The reading of blocks.
ghost use Rattle.std.specs.Prelude.{◌≤◌, length};
ghost use Rattle.t_shapes.specs.Reads.{AreSteps, IsBlock, IsCode};
ghost use Rattle.t_text.specs.Kept.{tokens_of};

use crate::ends::end;
use crate::heads::head;
use crate::raw::{RawBlock, RawInstr};
use crate::steps::{begins_step, step};
use crate::{Stopped, expect, expect_two};
use idx_core::Span;
use std::alloc::Global;
use t_text::{Tokens, Wanted};

/// Instructions that were read, and the number of the token after them.
#[derive(Drop)]
pub struct FoundSteps {
    pub steps: Vec<(RawInstr, Span)>,
    pub next: usize,
}

/// A block that was read, and the number of the token after it.
#[derive(Drop)]
pub struct FoundBlock {
    pub block: RawBlock,
    pub next: usize,
}

// I .. I, any number of them
fn steps(alloc: Global, tokens: &Tokens, at: usize) -> Result<FoundSteps, Stopped>
    requires { at ≤ length (tokens_of tokens.now) }
    ensures { AreSteps (tokens_of tokens.now) at result }
{
    let mut steps = Vec::new(alloc);
    let mut next = at;
    while begins_step(tokens, next) {
        let found = step(alloc, tokens, next)?;
        next = found.next;
        steps.push(found.step)?;
    }
    Ok(FoundSteps { steps, next })
}

/// [ names ] File . I .. I End: what follows on `code` of a block with this label.
pub fn code(alloc: Global, tokens: &Tokens, at: usize, name: Span) -> Result<FoundBlock, Stopped>
    requires { at ≤ length (tokens_of tokens.now) }
    ensures { IsCode (tokens_of tokens.now) at name result }
{
    let head = head(alloc, tokens, at)?;
    let body = steps(alloc, tokens, head.next)?;
    let end = end(alloc, tokens, body.next)?;
    Ok(FoundBlock {
        block: RawBlock {
            name,
            names: head.names,
            file: head.file,
            body: body.steps,
            last: end.last,
        },
        next: end.next,
    })
}

/// Block ::= label : code [ names ] File . I .. I End
pub fn block(alloc: Global, tokens: &Tokens, at: usize) -> Result<FoundBlock, Stopped>
    requires { at ≤ length (tokens_of tokens.now) }
    ensures { IsBlock (tokens_of tokens.now) at result }
{
    let label = expect(tokens, at, Wanted::Name)?;
    expect_two(tokens, at + 1, Wanted::Colon, Wanted::Code)?;
    let found = code(alloc, tokens, at + 3, label.span)?;
    Ok(found)
}
