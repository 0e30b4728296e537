// The reading of the heads of blocks.
ghost use Rattle.std.specs.Prelude.{◌≤◌, length};
ghost use Rattle.t_shapes.specs.Reads.{IsHead};
ghost use Rattle.t_text.specs.Kept.{tokens_of};

use crate::{RawFile, Stopped, binds, expect, file};
use idx_core::Span;
use std::alloc::Global;
use t_text::{Tokens, Wanted};

/// What was read of a block before its instructions: its names and its file, and the number of the token after them.
#[derive(Drop)]
pub struct FoundHead {
    pub names: Vec<Span>,
    pub file: RawFile,
    pub next: usize,
}

/// [ names ] File .
pub fn head(alloc: Global, tokens: &Tokens, at: usize) -> Result<FoundHead, Stopped>
    requires { at ≤ length (tokens_of tokens.now) }
    ensures { IsHead (tokens_of tokens.now) at result }
{
    let names = binds(alloc, tokens, at, 0)?;
    let found = file(alloc, tokens, names.next, 0)?;
    expect(tokens, found.next, Wanted::Dot)?;
    Ok(FoundHead {
        names: names.names,
        file: found.file,
        next: found.next + 1,
    })
}
