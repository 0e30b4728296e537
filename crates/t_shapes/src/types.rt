// The reading of types by recursive descent, one token ahead.
ghost use Rattle.std.specs.Prelude.{◌≡◌, ◌<◌, ◌≤◌, length, MatchResult};
ghost use Rattle.t_text.specs.Raw.{RSome};
ghost use Rattle.t_text.specs.Text.{most_open};
ghost use Rattle.t_text.specs.declared.token.Kind.TheVariants as kinds;
ghost use Rattle.t_shapes.specs.RawTypes.{raw};
ghost use Rattle.t_shapes.specs.ReadsTypes.{IsType, IsTypeFrom, IsFile, IsRegs, IsEntry, IsFields, IsField};
ghost use Rattle.t_shapes.specs.declared.cursor.Stopped.TheVariants as stopped;
ghost use Rattle.t_text.specs.Kept.{tokens_of};

use crate::cursor::{
    Stopped, expect, expect_flag, expect_register, expect_two, opened, peek, take,
};
use crate::names::binds;
use crate::raw_types::{RawFile, RawType};
use idx_core::Span;
use std::alloc::Global;
use t_text::{Kind, Tokens, Wanted};

/// A type that was read, the end of its last token, and the number of the token after it.
#[derive(Drop)]
pub struct FoundType {
    pub ty: RawType,
    pub end: u64,
    pub next: usize,
}

/// A register file type that was read, the end of its last token, and the number of the token after it.
#[derive(Drop)]
pub struct FoundFile {
    pub file: RawFile,
    pub end: u64,
    pub next: usize,
}

// a register with its place and its type, and the number of the token after them
#[derive(Drop)]
struct FoundEntry {
    entry: (u64, Span, RawType),
    next: usize,
}

// a type with its flag, and the number of the token after them
#[derive(Drop)]
struct FoundField {
    field: (RawType, bool),
    next: usize,
}

fn exists(alloc: Global, name: Span, body: RawType) -> Result<RawType, Stopped>
    ensures { MatchResult result (λ t. raw t ≡ RSome name (raw body)) (λ e. e ≡ stopped.Memory) }
{
    Ok(RawType::Some(name, Box::new(alloc, body)?))
}

/// T ::= int | name | all [ names ] File | some name . T | < > | < F , .. , F >
#[cycle(types)]
pub fn whole_type(
    alloc: Global,
    tokens: &Tokens,
    at: usize,
    depth: u64,
) -> Result<FoundType, Stopped>
    requires depth { depth ≤ most_open }
    requires at { at ≤ length (tokens_of tokens.now) }
    ensures { IsType (tokens_of tokens.now) depth at result }
{
    let token = match peek(tokens, at) {
        Some(token) => token,
        None => return Err(Stopped::Unexpected(at)),
    };
    let end = token.span.end;
    let next = at + 1;
    match token.kind {
        Kind::Int => {
            let ty = RawType::Int;
            Ok(FoundType { ty, end, next })
        }
        Kind::Name => {
            let ty = RawType::Name(token.span);
            Ok(FoundType { ty, end, next })
        }
        Kind::All => code_type(alloc, tokens, at, depth),
        Kind::Some => some_type(alloc, tokens, at, depth),
        Kind::LeftAngle => {
            let inner = opened(at, depth)?;
            let found = fields(alloc, tokens, next, inner)?;
            Ok(found)
        }
        _ => Err(Stopped::Unexpected(at)),
    }
}

// all [ names ] File
#[cycle(types)]
fn code_type(alloc: Global, tokens: &Tokens, at: usize, depth: u64) -> Result<FoundType, Stopped>
    requires depth { depth ≤ most_open }
    requires at { at < length (tokens_of tokens.now) }
    ensures { IsTypeFrom kinds.All (tokens_of tokens.now) depth at result }
{
    let names = binds(alloc, tokens, at + 1, depth)?;
    let found = file(alloc, tokens, names.next, depth)?;
    Ok(FoundType {
        ty: RawType::Code(names.names, found.file),
        end: found.end,
        next: found.next,
    })
}

// some name . T
#[cycle(types)]
fn some_type(alloc: Global, tokens: &Tokens, at: usize, depth: u64) -> Result<FoundType, Stopped>
    requires depth { depth ≤ most_open }
    requires at { at < length (tokens_of tokens.now) }
    ensures { IsTypeFrom kinds.Some (tokens_of tokens.now) depth at result }
{
    let inner = opened(at, depth)?;
    let (name, _) = expect_two(tokens, at + 1, Wanted::Name, Wanted::Dot)?;
    let body = whole_type(alloc, tokens, at + 3, inner)?;
    let ty = exists(alloc, name.span, body.ty)?;
    Ok(FoundType {
        ty,
        end: body.end,
        next: body.next,
    })
}

/// File ::= { } | { reg : T , .. , reg : T }
#[cycle(types)]
pub fn file(alloc: Global, tokens: &Tokens, at: usize, depth: u64) -> Result<FoundFile, Stopped>
    requires depth { depth ≤ most_open }
    requires at { at ≤ length (tokens_of tokens.now) }
    ensures { IsFile (tokens_of tokens.now) depth at result }
{
    expect(tokens, at, Wanted::LeftBrace)?;
    let inner = opened(at, depth)?;
    let found = regs(alloc, tokens, at + 1, inner)?;
    Ok(found)
}

// reg : T , .. , reg : T and the closing brace, or the brace alone
#[cycle(types)]
fn regs(alloc: Global, tokens: &Tokens, at: usize, depth: u64) -> Result<FoundFile, Stopped>
    requires depth { depth ≤ most_open }
    requires at { at ≤ length (tokens_of tokens.now) }
    ensures { IsRegs (tokens_of tokens.now) depth at result }
{
    let mut regs = Vec::new(alloc);
    if let Some(close) = take(tokens, at, Wanted::RightBrace) {
        return Ok(FoundFile {
            file: RawFile { regs },
            end: close.span.end,
            next: at + 1,
        });
    }
    let first = entry(alloc, tokens, at, depth)?;
    let mut next = first.next;
    regs.push(first.entry)?;
    while let Some(_) = take(tokens, next, Wanted::Comma) {
        let found = entry(alloc, tokens, next + 1, depth)?;
        next = found.next;
        regs.push(found.entry)?;
    }
    let close = expect(tokens, next, Wanted::RightBrace)?;
    Ok(FoundFile {
        file: RawFile { regs },
        end: close.span.end,
        next: next + 1,
    })
}

// reg : T
#[cycle(types)]
fn entry(alloc: Global, tokens: &Tokens, at: usize, depth: u64) -> Result<FoundEntry, Stopped>
    requires depth { depth ≤ most_open }
    requires at { at ≤ length (tokens_of tokens.now) }
    ensures { IsEntry (tokens_of tokens.now) depth at result }
{
    let (reg, span) = expect_register(tokens, at)?;
    expect(tokens, at + 1, Wanted::Colon)?;
    let found = whole_type(alloc, tokens, at + 2, depth)?;
    Ok(FoundEntry {
        entry: (reg, span, found.ty),
        next: found.next,
    })
}

// F , .. , F and the closing bracket, or the bracket alone
#[cycle(types)]
fn fields(alloc: Global, tokens: &Tokens, at: usize, depth: u64) -> Result<FoundType, Stopped>
    requires depth { depth ≤ most_open }
    requires at { at ≤ length (tokens_of tokens.now) }
    ensures { IsFields (tokens_of tokens.now) depth at result }
{
    let mut fields = Vec::new(alloc);
    if let Some(close) = take(tokens, at, Wanted::RightAngle) {
        return Ok(FoundType {
            ty: RawType::Tuple(fields),
            end: close.span.end,
            next: at + 1,
        });
    }
    let first = field(alloc, tokens, at, depth)?;
    let mut next = first.next;
    fields.push(first.field)?;
    while let Some(_) = take(tokens, next, Wanted::Comma) {
        let found = field(alloc, tokens, next + 1, depth)?;
        next = found.next;
        fields.push(found.field)?;
    }
    let close = expect(tokens, next, Wanted::RightAngle)?;
    Ok(FoundType {
        ty: RawType::Tuple(fields),
        end: close.span.end,
        next: next + 1,
    })
}

// F ::= T ^ 0 | T ^ 1
#[cycle(types)]
fn field(alloc: Global, tokens: &Tokens, at: usize, depth: u64) -> Result<FoundField, Stopped>
    requires depth { depth ≤ most_open }
    requires at { at ≤ length (tokens_of tokens.now) }
    ensures { IsField (tokens_of tokens.now) depth at result }
{
    let found = whole_type(alloc, tokens, at, depth)?;
    expect(tokens, found.next, Wanted::Caret)?;
    let flag = expect_flag(tokens, found.next + 1)?;
    Ok(FoundField {
        field: (found.ty, flag),
        next: found.next + 2,
    })
}
