// The reading of programs.
ghost use Rattle.std.specs.Prelude.{◌≡◌, ◌≤◌, length, MatchResult};
ghost use Rattle.t_text.specs.GrammarTable.{header_after};
ghost use Rattle.t_shapes.specs.Reads.{AreBlocks, version_owed, IsHeaded, IsProgram, IsStop};
ghost use Rattle.t_text.specs.Kept.{tokens_of};

use crate::blocks::block;
use crate::items::{FoundItems, items};
use crate::raw::RawItem;
use crate::{Stopped, expect, peek, take};
use std::alloc::Global;
use t_text::{Kind, Tokens, Wanted};

// Block .. Block, one or more
fn blocks(alloc: Global, tokens: &Tokens, at: usize) -> Result<FoundItems, Stopped>
    requires { at ≤ length (tokens_of tokens.now) }
    ensures { AreBlocks (tokens_of tokens.now) at result }
{
    let first = block(alloc, tokens, at)?;
    let mut next = first.next;
    let mut items = Vec::new(alloc);
    items.push(RawItem::Block(first.block))?;
    while let Some(_) = take(tokens, next, Wanted::Name) {
        let found = block(alloc, tokens, next)?;
        next = found.next;
        items.push(RawItem::Block(found.block))?;
    }
    Ok(FoundItems { items, next })
}

/// What a header's number heads.
#[derive(Clone, Copy)]
pub enum Version {
    Blocks,
    Items,
}

/// What a header with this number heads.
pub fn version_of(kind: Kind) -> Option<Version>
    ensures { version_owed result ≡ header_after kind }
{
    match kind {
        Kind::Plain(value) => {
            if value == 1 {
                Some(Version::Blocks)
            } else if value == 2 {
                Some(Version::Items)
            } else {
                None
            }
        }
        _ => None,
    }
}

// 1 Block .. Block | 2 Item .. Item
fn headed(alloc: Global, tokens: &Tokens, at: usize) -> Result<FoundItems, Stopped>
    requires { at ≤ length (tokens_of tokens.now) }
    ensures { IsHeaded (tokens_of tokens.now) at result }
{
    let number = match peek(tokens, at) {
        Some(number) => number,
        None => return Err(Stopped::Unexpected(at)),
    };
    match version_of(number.kind) {
        Some(Version::Blocks) => blocks(alloc, tokens, at + 1),
        Some(Version::Items) => items(alloc, tokens, at + 1),
        None => Err(Stopped::Unexpected(at)),
    }
}

/// Program ::= tal 1 Block .. Block | tal 2 Item .. Item, with one block at least
///
/// The items of the program that all the tokens are, or the number of the first token, or of the end, that no
/// program can have there, or at which more than 2000 constructs are open.
pub fn program(alloc: Global, tokens: &Tokens) -> Result<Vec<RawItem>, Stopped>
    ensures { MatchResult result (λ xs. IsProgram (tokens_of tokens.now) xs.items)
        (λ e. IsStop (tokens_of tokens.now) e) }
{
    expect(tokens, 0, Wanted::Tal)?;
    let found = headed(alloc, tokens, 1)?;
    if found.next < tokens.len() {
        return Err(Stopped::Unexpected(found.next));
    }
    Ok(found.items)
}
