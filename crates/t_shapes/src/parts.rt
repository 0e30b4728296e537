// The reading of what stands in brackets of instructions. There no construct is open around.
ghost use Rattle.std.specs.Prelude.{◌≤◌, length};
ghost use Rattle.t_shapes.specs.Reads.{IsIndex, IsRegField, IsTarget, IsInt, IsOperand};
ghost use Rattle.t_text.specs.Kept.{tokens_of};

use crate::{Stopped, expect, expect_index, expect_register, expect_two};
use idx_core::Span;
use t_text::{Tokens, Wanted};

/// A number in brackets, and the end of the closing bracket.
#[derive(Drop)]
pub struct FoundIndex {
    pub field: u64,
    pub end: u64,
}

/// A register with a field's number in brackets, and the end of the closing bracket.
#[derive(Drop)]
pub struct FoundPlace {
    pub reg: u64,
    pub field: u64,
    pub end: u64,
}

/// A name and a register in brackets.
#[derive(Drop)]
pub struct FoundTarget {
    pub name: Span,
    pub reg: u64,
}

/// [ n ]
#[inline(always)]
pub fn index(tokens: &Tokens, at: usize) -> Result<FoundIndex, Stopped>
    requires { at ≤ length (tokens_of tokens.now) }
    ensures { IsIndex (tokens_of tokens.now) at result }
{
    expect(tokens, at, Wanted::LeftBracket)?;
    let field = expect_index(tokens, at + 1)?;
    let close = expect(tokens, at + 2, Wanted::RightBracket)?;
    Ok(FoundIndex {
        field,
        end: close.span.end,
    })
}

/// reg [ n ]
#[inline(always)]
pub fn place(tokens: &Tokens, at: usize) -> Result<FoundPlace, Stopped>
    requires { at ≤ length (tokens_of tokens.now) }
    ensures { IsRegField (tokens_of tokens.now) at result }
{
    let (reg, _) = expect_register(tokens, at)?;
    let found = index(tokens, at + 1)?;
    Ok(FoundPlace {
        reg,
        field: found.field,
        end: found.end,
    })
}

/// [ name , reg ]
pub fn target(tokens: &Tokens, at: usize) -> Result<FoundTarget, Stopped>
    requires { at ≤ length (tokens_of tokens.now) }
    ensures { IsTarget (tokens_of tokens.now) at result }
{
    expect(tokens, at, Wanted::LeftBracket)?;
    let (name, _) = expect_two(tokens, at + 1, Wanted::Name, Wanted::Comma)?;
    let (reg, _) = expect_register(tokens, at + 3)?;
    expect(tokens, at + 4, Wanted::RightBracket)?;
    Ok(FoundTarget {
        name: name.span,
        reg,
    })
}

/// [ int ], of which the end of the closing bracket is left.
pub fn int(tokens: &Tokens, at: usize) -> Result<u64, Stopped>
    requires { at ≤ length (tokens_of tokens.now) }
    ensures { IsInt (tokens_of tokens.now) at result }
{
    expect(tokens, at, Wanted::LeftBracket)?;
    let (_, close) = expect_two(tokens, at + 1, Wanted::Int, Wanted::RightBracket)?;
    Ok(close.span.end)
}

/// reg , of which the number of the register is left.
#[inline(always)]
pub fn operand(tokens: &Tokens, at: usize) -> Result<u64, Stopped>
    requires { at ≤ length (tokens_of tokens.now) }
    ensures { IsOperand (tokens_of tokens.now) at result }
{
    let (reg, _) = expect_register(tokens, at)?;
    expect(tokens, at + 1, Wanted::Comma)?;
    Ok(reg)
}
