// The reading of the names that a form binds.
ghost use Rattle.std.specs.Prelude.{◌≤◌, length};
ghost use Rattle.t_text.specs.Text.{most_open};
ghost use Rattle.t_shapes.specs.ReadsTypes.{IsBinds, IsNames};
ghost use Rattle.t_text.specs.Kept.{tokens_of};

use crate::cursor::{Stopped, expect, opened, take};
use idx_core::Span;
use std::alloc::Global;
use t_text::{Tokens, Wanted};

/// Names in brackets that were read, each by its place, and the number of the token after them.
#[derive(Drop)]
pub struct FoundNames {
    pub names: Vec<Span>,
    pub next: usize,
}

/// [ names ], where names ::= nothing | name , .. , name
pub fn binds(alloc: Global, tokens: &Tokens, at: usize, depth: u64) -> Result<FoundNames, Stopped>
    requires depth { depth ≤ most_open }
    requires at { at ≤ length (tokens_of tokens.now) }
    ensures { IsBinds (tokens_of tokens.now) depth at result }
{
    expect(tokens, at, Wanted::LeftBracket)?;
    let inner = opened(at, depth)?;
    let found = names(alloc, tokens, at + 1, inner)?;
    Ok(found)
}

// names and the closing bracket, or the bracket alone
fn names(alloc: Global, tokens: &Tokens, at: usize, depth: u64) -> Result<FoundNames, Stopped>
    requires depth { depth ≤ most_open }
    requires at { at ≤ length (tokens_of tokens.now) }
    ensures { IsNames (tokens_of tokens.now) depth at result }
{
    let mut names = Vec::new(alloc);
    if let Some(_) = take(tokens, at, Wanted::RightBracket) {
        return Ok(FoundNames {
            names,
            next: at + 1,
        });
    }
    let first = expect(tokens, at, Wanted::Name)?;
    names.push(first.span)?;
    let mut next = at + 1;
    while let Some(_) = take(tokens, next, Wanted::Comma) {
        let name = expect(tokens, next + 1, Wanted::Name)?;
        names.push(name.span)?;
        next += 2;
    }
    expect(tokens, next, Wanted::RightBracket)?;
    Ok(FoundNames {
        names,
        next: next + 1,
    })
}
