// The reading of instructions. Around them no construct is open.
ghost use Rattle.std.specs.Prelude.{◌≡◌, ◌≤◌, ◌<◌, length, slice_get, is_some};
ghost use Rattle.t_text.specs.GrammarTable.{instr_after};
ghost use Rattle.t_shapes.specs.Reads.{IsRest, IsStep, step_next, arith_left, bnz_left, ld_left, malloc_left, mov_left};
ghost use Rattle.t_shapes.specs.Reads.{st_left, unpack_left};
ghost use Rattle.t_text.specs.Kept.{tokens_of};

use crate::lists::types;
use crate::parts::{operand, place, target};
use crate::raw::RawInstr;
use crate::values::value;
use crate::{Stopped, expect, expect_register, peek};
use idx_core::{Op, Span};
use std::alloc::Global;
use t_text::{Kind, Token, Tokens, Wanted};

/// An instruction that was read, with its place, and the number of the token after it.
#[derive(Drop)]
pub struct FoundStep {
    pub step: (RawInstr, Span),
    pub next: usize,
}

/// The place of a form from its word up to an end.
pub fn up_to(word: Token, end: u64) -> Span
    ensures { result ≡ record { start = word.span.start; end = end } }
{
    Span {
        start: word.span.start,
        end,
    }
}

// reg , reg , V
#[inline(always)]
fn arith(
    alloc: Global,
    tokens: &Tokens,
    at: usize,
    word: Token,
    op: Op,
) -> Result<FoundStep, Stopped>
    requires { at ≤ length (tokens_of tokens.now) }
    ensures { IsRest (arith_left op) (tokens_of tokens.now) at word result }
{
    let rd = operand(tokens, at)?;
    let rs = operand(tokens, at + 2)?;
    let found = value(alloc, tokens, at + 4, 0, false)?;
    Ok(FoundStep {
        step: (
            RawInstr::Arith(op, rd, rs, found.value),
            up_to(word, found.place.end),
        ),
        next: found.next,
    })
}

// reg , V
fn bnz(alloc: Global, tokens: &Tokens, at: usize, word: Token) -> Result<FoundStep, Stopped>
    requires { at ≤ length (tokens_of tokens.now) }
    ensures { IsRest bnz_left (tokens_of tokens.now) at word result }
{
    let reg = operand(tokens, at)?;
    let found = value(alloc, tokens, at + 2, 0, false)?;
    Ok(FoundStep {
        step: (
            RawInstr::Bnz(reg, found.value),
            up_to(word, found.place.end),
        ),
        next: found.next,
    })
}

// reg , V
fn mov(alloc: Global, tokens: &Tokens, at: usize, word: Token) -> Result<FoundStep, Stopped>
    requires { at ≤ length (tokens_of tokens.now) }
    ensures { IsRest mov_left (tokens_of tokens.now) at word result }
{
    let reg = operand(tokens, at)?;
    let found = value(alloc, tokens, at + 2, 0, false)?;
    Ok(FoundStep {
        step: (
            RawInstr::Mov(reg, found.value),
            up_to(word, found.place.end),
        ),
        next: found.next,
    })
}

// reg , reg [ n ]
fn ld(tokens: &Tokens, at: usize, word: Token) -> Result<FoundStep, Stopped>
    requires { at ≤ length (tokens_of tokens.now) }
    ensures { IsRest ld_left (tokens_of tokens.now) at word result }
{
    let reg = operand(tokens, at)?;
    let found = place(tokens, at + 2)?;
    Ok(FoundStep {
        step: (
            RawInstr::Ld(reg, found.reg, found.field),
            up_to(word, found.end),
        ),
        next: at + 6,
    })
}

// reg [ T , .. , T ]
fn malloc(alloc: Global, tokens: &Tokens, at: usize, word: Token) -> Result<FoundStep, Stopped>
    requires { at ≤ length (tokens_of tokens.now) }
    ensures { IsRest malloc_left (tokens_of tokens.now) at word result }
{
    let (reg, _) = expect_register(tokens, at)?;
    let found = types(alloc, tokens, at + 1, 0)?;
    Ok(FoundStep {
        step: (RawInstr::Malloc(reg, found.types), up_to(word, found.end)),
        next: found.next,
    })
}

// reg [ n ] , reg
fn st(tokens: &Tokens, at: usize, word: Token) -> Result<FoundStep, Stopped>
    requires { at ≤ length (tokens_of tokens.now) }
    ensures { IsRest st_left (tokens_of tokens.now) at word result }
{
    let found = place(tokens, at)?;
    expect(tokens, at + 4, Wanted::Comma)?;
    let (reg, span) = expect_register(tokens, at + 5)?;
    Ok(FoundStep {
        step: (
            RawInstr::St(found.reg, found.field, reg),
            up_to(word, span.end),
        ),
        next: at + 6,
    })
}

// [ name , reg ] , V
fn unpack(alloc: Global, tokens: &Tokens, at: usize, word: Token) -> Result<FoundStep, Stopped>
    requires { at ≤ length (tokens_of tokens.now) }
    ensures { IsRest unpack_left (tokens_of tokens.now) at word result }
{
    let to = target(tokens, at)?;
    expect(tokens, at + 5, Wanted::Comma)?;
    let found = value(alloc, tokens, at + 6, 0, false)?;
    Ok(FoundStep {
        step: (
            RawInstr::Unpack(to.name, to.reg, found.value),
            up_to(word, found.place.end),
        ),
        next: found.next,
    })
}

/// Whether the token at a place begins an instruction.
pub fn begins_step(tokens: &Tokens, at: usize) -> bool
    ensures { result ≡ step_next (slice_get (tokens_of tokens.now) at) }
{
    match peek(tokens, at) {
        Some(token) => is_instruction(token.kind),
        None => false,
    }
}

fn is_instruction(kind: Kind) -> bool
    ensures { result ≡ is_some (instr_after kind) }
{
    matches!(
        kind,
        Kind::Add
            | Kind::Sub
            | Kind::Mul
            | Kind::Bnz
            | Kind::Ld
            | Kind::Malloc
            | Kind::Mov
            | Kind::St
            | Kind::Unpack
    )
}

/// I ::= add reg , reg , V | sub reg , reg , V | mul reg , reg , V | bnz reg , V | ld reg , reg [ n ]
/// | malloc reg [ T , .. , T ] | mov reg , V | st reg [ n ] , reg | unpack [ name , reg ] , V
pub fn step(alloc: Global, tokens: &Tokens, at: usize) -> Result<FoundStep, Stopped>
    requires { at ≤ length (tokens_of tokens.now) }
    ensures { IsStep (tokens_of tokens.now) at result }
{
    let word = match peek(tokens, at) {
        Some(word) => word,
        None => return Err(Stopped::Unexpected(at)),
    };
    let next = at + 1;
    match word.kind {
        Kind::Add => arith(alloc, tokens, next, word, Op::Add),
        Kind::Sub => arith(alloc, tokens, next, word, Op::Sub),
        Kind::Mul => arith(alloc, tokens, next, word, Op::Mul),
        Kind::Bnz => bnz(alloc, tokens, next, word),
        Kind::Ld => ld(tokens, next, word),
        Kind::Malloc => malloc(alloc, tokens, next, word),
        Kind::Mov => mov(alloc, tokens, next, word),
        Kind::St => st(tokens, next, word),
        Kind::Unpack => unpack(alloc, tokens, next, word),
        _ => Err(Stopped::Unexpected(at)),
    }
}
