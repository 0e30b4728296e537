// The reading of lists of types.
ghost use Rattle.std.specs.Prelude.{◌≤◌, length};
ghost use Rattle.t_text.specs.Text.{most_open};
ghost use Rattle.t_shapes.specs.Reads.{IsTypes, IsTypeList, IsSomeTypes};
ghost use Rattle.t_text.specs.Kept.{tokens_of};

use crate::{RawType, Stopped, expect, opened, take, whole_type};
use std::alloc::Global;
use t_text::{Tokens, Wanted};

/// Types in brackets that were read, the end of the closing bracket, and the number of the token after it.
#[derive(Drop)]
pub struct FoundTypes {
    pub types: Vec<RawType>,
    pub end: u64,
    pub next: usize,
}

/// [ ] or [ T , .. , T ]
pub fn types(alloc: Global, tokens: &Tokens, at: usize, depth: u64) -> Result<FoundTypes, Stopped>
    requires depth { depth ≤ most_open }
    requires at { at ≤ length (tokens_of tokens.now) }
    ensures { IsTypes (tokens_of tokens.now) depth at result }
{
    expect(tokens, at, Wanted::LeftBracket)?;
    let inner = opened(at, depth)?;
    let found = type_list(alloc, tokens, at + 1, inner)?;
    Ok(found)
}

// types and the closing bracket, or the bracket alone
fn type_list(alloc: Global, tokens: &Tokens, at: usize, depth: u64) -> Result<FoundTypes, Stopped>
    requires depth { depth ≤ most_open }
    requires at { at ≤ length (tokens_of tokens.now) }
    ensures { IsTypeList (tokens_of tokens.now) depth at result }
{
    if let Some(close) = take(tokens, at, Wanted::RightBracket) {
        return Ok(FoundTypes {
            types: Vec::new(alloc),
            end: close.span.end,
            next: at + 1,
        });
    }
    let found = some_types(alloc, tokens, at, depth)?;
    Ok(found)
}

/// T , .. , T ]
pub fn some_types(
    alloc: Global,
    tokens: &Tokens,
    at: usize,
    depth: u64,
) -> Result<FoundTypes, Stopped>
    requires depth { depth ≤ most_open }
    requires at { at ≤ length (tokens_of tokens.now) }
    ensures { IsSomeTypes (tokens_of tokens.now) depth at result }
{
    let mut types = Vec::new(alloc);
    let first = whole_type(alloc, tokens, at, depth)?;
    let mut next = first.next;
    types.push(first.ty)?;
    while let Some(_) = take(tokens, next, Wanted::Comma) {
        let found = whole_type(alloc, tokens, next + 1, depth)?;
        next = found.next;
        types.push(found.ty)?;
    }
    let close = expect(tokens, next, Wanted::RightBracket)?;
    Ok(FoundTypes {
        types,
        end: close.span.end,
        next: next + 1,
    })
}
