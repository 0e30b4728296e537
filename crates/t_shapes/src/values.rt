// The reading of values: those of instructions, and those of data, which name no registers.
ghost use Rattle.std.specs.Prelude.{◌≡◌, ◌≤◌, length, slice_get, Some, Bool, true, false, MatchOption, MatchResult};
ghost use Rattle.t_text.specs.Raw.{RPack};
ghost use Rattle.t_text.specs.GrammarTable.{base_of};
ghost use Rattle.t_text.specs.Text.{most_open};
ghost use Rattle.t_shapes.specs.RawTypes.{raw};
ghost use Rattle.t_shapes.specs.declared.cursor.Stopped.TheVariants as stopped;
ghost use Rattle.t_shapes.specs.Raw.{raw_base, raw_value, is_base};
ghost use Rattle.t_shapes.specs.Reads.{IsValue, IsPacked};
ghost use Rattle.t_text.specs.Kept.{tokens_of};

use crate::lists::some_types;
use crate::raw::{RawBase, RawPack, RawValue};
use crate::steps::up_to;
use crate::{RawType, Stopped, expect, opened, peek, take, whole_type};
use idx_core::Span;
use std::alloc::Global;
use t_text::{Kind, Token, Tokens, Wanted};

/// A value that was read, its place, and the number of the token after it.
#[derive(Drop)]
pub struct FoundValue {
    pub value: RawValue,
    pub place: Span,
    pub next: usize,
}

/// The hidden type and the value of a package that were read, and the number of the token after them.
#[derive(Drop)]
pub struct FoundPacked {
    pub hidden: RawType,
    pub inner: RawValue,
    pub next: usize,
}

// A base that was read: the number of its token, the token, and what it names.
#[derive(Clone, Copy, Drop)]
struct First {
    at: usize,
    token: Token,
    base: RawBase,
}

// N ::= reg | number | label, and of data Q ::= number | label
#[inline(always)]
fn base(token: Token, of_data: bool) -> Option<RawBase>
    ensures { MatchOption result (is_base of_data token.kind ≡ false)
        (λ b. (is_base of_data token.kind ≡ true) × (raw_base b ≡ base_of token.kind token.span)) }
{
    match token.kind {
        Kind::Register(number) => {
            if of_data {
                None
            } else {
                Some(RawBase::Reg(number))
            }
        }
        Kind::Plain(value) => Some(RawBase::Num(value)),
        Kind::Negative(value) => Some(RawBase::Num(value)),
        Kind::Name => Some(RawBase::Label(token.span)),
        _ => None,
    }
}

/// A package of these parts.
pub fn package(
    alloc: Global,
    hidden: RawType,
    inner: RawValue,
    shape: RawType,
) -> Result<RawValue, Stopped>
    ensures { MatchResult result
        (λ v. raw_value v ≡ RPack (raw hidden) (raw_value inner) (raw shape))
        (λ e. e ≡ stopped.Memory) }
{
    Ok(RawValue::Pack(Box::new(
        alloc,
        RawPack {
            hidden,
            inner,
            shape,
        },
    )?))
}

// N | N [ T , .. , T ]
#[inline(always)]
fn plain(alloc: Global, tokens: &Tokens, first: First, depth: u64) -> Result<FoundValue, Stopped>
    requires depth { depth ≤ most_open }
    requires token { slice_get (tokens_of tokens.now) first.at ≡ Some first.token }
    requires base { raw_base first.base ≡ base_of first.token.kind first.token.span }
    ensures { (of_data : Bool) → is_base of_data first.token.kind ≡ true →
        IsValue of_data (tokens_of tokens.now) depth first.at result }
{
    let next = first.at + 1;
    match take(tokens, next, Wanted::LeftBracket) {
        None => Ok(FoundValue {
            value: RawValue::Plain(first.base, Vec::new(alloc)),
            place: first.token.span,
            next,
        }),
        Some(_) => {
            let inner = opened(next, depth)?;
            let found = some_types(alloc, tokens, next + 1, inner)?;
            Ok(FoundValue {
                value: RawValue::Plain(first.base, found.types),
                place: up_to(first.token, found.end),
                next: found.next,
            })
        }
    }
}

/// V ::= N | N [ T , .. , T ] | pack [ T , V ] as T, and so is a value of data.
#[cycle(values)]
#[inline(always)]
pub fn value(
    alloc: Global,
    tokens: &Tokens,
    at: usize,
    depth: u64,
    of_data: bool,
) -> Result<FoundValue, Stopped>
    requires depth { depth ≤ most_open }
    requires at { at ≤ length (tokens_of tokens.now) }
    ensures { IsValue of_data (tokens_of tokens.now) depth at result }
{
    let token = match peek(tokens, at) {
        Some(token) => token,
        None => return Err(Stopped::Unexpected(at)),
    };
    if let Some(base) = base(token, of_data) {
        return plain(alloc, tokens, First { at, token, base }, depth);
    }
    match token.kind {
        Kind::Pack => {
            let packed = packed(alloc, tokens, at + 1, depth, of_data)?;
            expect(tokens, packed.next, Wanted::As)?;
            let shape = whole_type(alloc, tokens, packed.next + 1, depth)?;
            let value = package(alloc, packed.hidden, packed.inner, shape.ty)?;
            Ok(FoundValue {
                value,
                place: up_to(token, shape.end),
                next: shape.next,
            })
        }
        _ => Err(Stopped::Unexpected(at)),
    }
}

// [ T , V ]
#[cycle(values)]
fn packed(
    alloc: Global,
    tokens: &Tokens,
    at: usize,
    depth: u64,
    of_data: bool,
) -> Result<FoundPacked, Stopped>
    requires depth { depth ≤ most_open }
    requires at { at ≤ length (tokens_of tokens.now) }
    ensures { IsPacked of_data (tokens_of tokens.now) depth at result }
{
    expect(tokens, at, Wanted::LeftBracket)?;
    let inner = opened(at, depth)?;
    let hidden = whole_type(alloc, tokens, at + 1, inner)?;
    expect(tokens, hidden.next, Wanted::Comma)?;
    let found = value(alloc, tokens, hidden.next + 1, inner, of_data)?;
    expect(tokens, found.next, Wanted::RightBracket)?;
    Ok(FoundPacked {
        hidden: hidden.ty,
        inner: found.value,
        next: found.next + 1,
    })
}
