// The reading of a function's parameter.
ghost use Rattle.std.specs.Prelude.{[], ◌∷◌, ◌≤◌, length, MatchResult};
ghost use Rattle.text_core.specs.Table.{Nt};
ghost use Rattle.f_grammar.specs.Machine.{LParam};
ghost use Rattle.f_grammar.specs.Reads.{ReadsParameter, Fails};

use crate::cursor::{Stopped, Wanted, expect, opened};
use crate::raw::RawType;
use crate::types::whole_type;
use f_lexer::Token;
use std::alloc::Global;

/// The name and the type of a function's parameter, and the number of the token after them.
#[derive(Drop)]
pub struct FoundParameter {
    pub name: Token,
    pub ty: RawType,
    pub next: usize,
}

/// ( name : T )
pub fn parameter(
    alloc: Global,
    tokens: &[Token],
    at: usize,
    depth: u64,
) -> Result<FoundParameter, Stopped>
    requires depth { depth ≤ 200 }
    requires at { at ≤ length tokens.now }
    ensures { MatchResult result (λ f. ReadsParameter tokens.now depth at f)
        (λ e. Fails tokens.now depth at (Nt LParam ∷ []) [] e) }
{
    expect(tokens, at, Wanted::LeftParen)?;
    let inner = opened(at, depth)?;
    let name = expect(tokens, at + 1, Wanted::Name)?;
    expect(tokens, at + 2, Wanted::Colon)?;
    let found = whole_type(alloc, tokens, at + 3, inner)?;
    expect(tokens, found.next, Wanted::RightParen)?;
    Ok(FoundParameter {
        name,
        ty: found.ty,
        next: found.next + 1,
    })
}
