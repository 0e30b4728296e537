// The reading of types by recursive descent, one token ahead.
ghost use Rattle.std.specs.Prelude.{◌≡◌, ◌+◌, ◌<◌, List, [], ◌∷◌, ◌≤◌, length, slice_get, MatchResult};
ghost use Rattle.text_core.specs.Table.{Nt};
ghost use Rattle.f_grammar.specs.Machine.{LT, LU, LTypes, binder_next};
ghost use Rattle.f_grammar.specs.Raw.{RArrow, RRef, bound};
ghost use Rattle.f_grammar.specs.Read.{type_of};
ghost use Rattle.f_grammar.specs.Reads.{ReadsType, ReadsTypes, Fails};
ghost use Rattle.f_grammar.specs.declared.cursor.Stopped.TheVariants as stopped;

use crate::cursor::{Stopped, Wanted, expect, opened, peek, take};
use crate::raw::RawType;
use f_lexer::{Kind, Token};
use idx_core::Span;
use std::alloc::Global;

/// What binds a name in a type: `all` or `some`.
#[derive(Clone, Copy, Debug, PartialEq, Eq)]
pub enum Quantifier {
    All,
    Exists,
}

/// A type that was read, the place where its last token ends, and the number of the token after it.
#[derive(Drop)]
pub struct FoundType {
    pub ty: RawType,
    pub end: u64,
    pub next: usize,
}

/// Types in angle brackets that were read, the closing bracket, and the number of the token after it.
#[derive(Drop)]
pub struct FoundTypes {
    pub types: Vec<RawType>,
    pub close: Token,
    pub next: usize,
}

fn arrow(alloc: Global, a: RawType, b: RawType) -> Result<RawType, Stopped>
    ensures { MatchResult result (λ t. type_of t ≡ RArrow (type_of a) (type_of b)) (λ e. e ≡ stopped.Memory) }
{
    Ok(RawType::Arrow(Box::new(alloc, a)?, Box::new(alloc, b)?))
}

fn bound(
    alloc: Global,
    quantifier: Quantifier,
    name: Span,
    body: RawType,
) -> Result<RawType, Stopped>
    ensures { MatchResult result (λ t. type_of t ≡ bound quantifier name (type_of body)) (λ e. e ≡ stopped.Memory) }
{
    let body = Box::new(alloc, body)?;
    match quantifier {
        Quantifier::All => Ok(RawType::All(name, body)),
        Quantifier::Exists => Ok(RawType::Exists(name, body)),
    }
}

fn reference(alloc: Global, held: RawType) -> Result<RawType, Stopped>
    ensures { MatchResult result (λ t. type_of t ≡ RRef (type_of held)) (λ e. e ≡ stopped.Memory) }
{
    Ok(RawType::Ref(Box::new(alloc, held)?))
}

// A type that is one token, the one at `at`.
fn one_token(ty: RawType, span: Span, at: usize) -> FoundType
    requires { at < 18446744073709551615 }
    ensures { result ≡ record { ty = ty; end = span.end; next = at + 1 } }
{
    FoundType {
        ty,
        end: span.end,
        next: at + 1,
    }
}

// The binder that the next token is, if it is one.
fn next_binder(tokens: &[Token], at: usize) -> Option<Quantifier>
    ensures { result ≡ binder_next (slice_get tokens.now at) }
{
    match peek(tokens, at)?.kind {
        Kind::All => Some(Quantifier::All),
        Kind::Some => Some(Quantifier::Exists),
        _ => None,
    }
}

/// T ::= all name . T | some name . T | U -> T | U
#[cycle(types)]
pub fn whole_type(
    alloc: Global,
    tokens: &[Token],
    at: usize,
    depth: u64,
) -> Result<FoundType, Stopped>
    requires depth { depth ≤ 200 }
    requires at { at ≤ length tokens.now }
    ensures { MatchResult result (λ f. ReadsType LT tokens.now depth at f)
        (λ e. Fails tokens.now depth at (Nt LT ∷ []) [] e) }
{
    match next_binder(tokens, at) {
        Some(quantifier) => {
            let inner = opened(at, depth)?;
            let name = expect(tokens, at + 1, Wanted::Name)?;
            expect(tokens, at + 2, Wanted::Dot)?;
            let body = whole_type(alloc, tokens, at + 3, inner)?;
            let ty = bound(alloc, quantifier, name.span, body.ty)?;
            Ok(FoundType {
                ty,
                end: body.end,
                next: body.next,
            })
        }
        None => {
            let left = part_type(alloc, tokens, at, depth)?;
            match take(tokens, left.next, Wanted::Arrow) {
                None => Ok(left),
                Some(_) => {
                    let inner = opened(left.next, depth)?;
                    let right = whole_type(alloc, tokens, left.next + 1, inner)?;
                    let ty = arrow(alloc, left.ty, right.ty)?;
                    Ok(FoundType {
                        ty,
                        end: right.end,
                        next: right.next,
                    })
                }
            }
        }
    }
}

/// U ::= int | name | < > | < T , .. , T > | ( T ) | ref U
#[cycle(types)]
pub fn part_type(
    alloc: Global,
    tokens: &[Token],
    at: usize,
    depth: u64,
) -> Result<FoundType, Stopped>
    requires depth { depth ≤ 200 }
    requires at { at ≤ length tokens.now }
    ensures { MatchResult result (λ f. ReadsType LU tokens.now depth at f)
        (λ e. Fails tokens.now depth at (Nt LU ∷ []) [] e) }
{
    let Some(token) = peek(tokens, at) else {
        return Err(Stopped::Unexpected(at));
    };
    match token.kind {
        Kind::Int => Ok(one_token(RawType::Int, token.span, at)),
        Kind::Name => Ok(one_token(RawType::Name(token.span), token.span, at)),
        Kind::LeftAngle => {
            let inner = opened(at, depth)?;
            let found = types(alloc, tokens, at + 1, inner)?;
            Ok(FoundType {
                ty: RawType::Tuple(found.types),
                end: found.close.span.end,
                next: found.next,
            })
        }
        Kind::LeftParen => {
            let inner = opened(at, depth)?;
            let found = whole_type(alloc, tokens, at + 1, inner)?;
            let close = expect(tokens, found.next, Wanted::RightParen)?;
            Ok(FoundType {
                ty: found.ty,
                end: close.span.end,
                next: found.next + 1,
            })
        }
        Kind::Ref => {
            let inner = opened(at, depth)?;
            let held = part_type(alloc, tokens, at + 1, inner)?;
            let ty = reference(alloc, held.ty)?;
            Ok(FoundType {
                ty,
                end: held.end,
                next: held.next,
            })
        }
        _ => Err(Stopped::Unexpected(at)),
    }
}

/// T , .. , T and the closing bracket, or the bracket alone.
#[cycle(types)]
pub fn types(alloc: Global, tokens: &[Token], at: usize, depth: u64) -> Result<FoundTypes, Stopped>
    requires depth { depth ≤ 200 }
    requires at { at ≤ length tokens.now }
    ensures { MatchResult result (λ f. ReadsTypes tokens.now depth at f)
        (λ e. Fails tokens.now depth at (Nt LTypes ∷ []) [] e) }
{
    let mut types = Vec::new(alloc);
    match take(tokens, at, Wanted::RightAngle) {
        Some(close) => Ok(FoundTypes {
            types,
            close,
            next: at + 1,
        }),
        None => {
            let first = whole_type(alloc, tokens, at, depth)?;
            let mut next = first.next;
            types.push(first.ty)?;
            while let Some(_) = take(tokens, next, Wanted::Comma) {
                let found = whole_type(alloc, tokens, next + 1, depth)?;
                next = found.next;
                types.push(found.ty)?;
            }
            let close = expect(tokens, next, Wanted::RightAngle)?;
            Ok(FoundTypes {
                types,
                close,
                next: next + 1,
            })
        }
    }
}
