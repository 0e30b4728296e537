// The reading of what holds no term: what follows next, numbers, and the heads of binders.
ghost use Rattle.std.specs.Prelude.{◌≡◌, [], ◌∷◌, ◌≤◌, length, slice_get, MatchResult, Some, None};
ghost use Rattle.text_core.specs.Table.{Nt};
ghost use Rattle.text_core.specs.Going.{next_of};
ghost use Rattle.f_grammar.specs.Machine.{LE, table};
ghost use Rattle.f_grammar.specs.Reads.{Fails};
ghost use Rattle.f_grammar.specs.declared.cursor.Stopped.TheVariants as stopped;
ghost use Rattle.f_grammar.specs.declared.cursor.Wanted.TheVariants as want;
ghost use Rattle.f_grammar.specs.ReadsTerms.{argument_next, sign_next, IsFieldNumber, ReadsHead, ReadsGenHead};

use crate::frame::Head;
use crate::{Stopped, Wanted, expect, opened, parameter, peek, whole_type};
use f_lexer::{Kind, Token};
use idx_core::Op;
use std::alloc::Global;

/// What may follow on a part in an application.
#[derive(Clone, Copy, Debug, PartialEq, Eq)]
pub(crate) enum Argument {
    Part,
    Bracket,
}

/// The head of a function that was read, and the number of the token after it.
#[derive(Drop)]
pub(crate) struct FoundHead {
    pub head: Head,
    pub next: usize,
}

/// What the next token begins, if it goes on with an application.
pub(crate) fn next_argument(tokens: &[Token], at: usize) -> Option<Argument>
    ensures { result ≡ argument_next (slice_get tokens.now at) }
{
    match peek(tokens, at)?.kind {
        Kind::LeftBracket => Some(Argument::Bracket),
        Kind::Name => Some(Argument::Part),
        Kind::Plain(_) => Some(Argument::Part),
        Kind::Negative(_) => Some(Argument::Part),
        Kind::LeftParen => Some(Argument::Part),
        Kind::LeftAngle => Some(Argument::Part),
        Kind::Hash => Some(Argument::Part),
        Kind::If0 => Some(Argument::Part),
        Kind::Ref => Some(Argument::Part),
        Kind::Bang => Some(Argument::Part),
        _ => None,
    }
}

/// The operator that the next token is, if it is `+` or `-`.
pub(crate) fn next_sign(tokens: &[Token], at: usize) -> Option<Op>
    ensures { result ≡ sign_next (slice_get tokens.now at) }
{
    match peek(tokens, at)?.kind {
        Kind::Plus => Some(Op::Add),
        Kind::Minus => Some(Op::Sub),
        _ => None,
    }
}

/// The value of the plain number that the next token must be.
pub(crate) fn field_number(tokens: &[Token], at: usize) -> Result<u64, Stopped>
    ensures { MatchResult result (λ n. IsFieldNumber tokens.now at n)
        (λ e. (e ≡ stopped.Unexpected at) × (next_of table want.Number (slice_get tokens.now at) ≡ None)) }
{
    let token = expect(tokens, at, Wanted::Number)?;
    match token.kind {
        Kind::Plain(value) => Ok(value.unsigned_abs()),
        _ => unreachable!(),
    }
}

/// fix name ( name : T ) : T .
pub(crate) fn function_head(
    alloc: Global,
    tokens: &[Token],
    at: usize,
    depth: u64,
    word: Token,
) -> Result<FoundHead, Stopped>
    requires depth { depth ≤ 200 }
    requires at { at ≤ length tokens.now }
    requires word { next_of table want.Fix (slice_get tokens.now at) ≡ Some word }
    ensures { MatchResult result (λ f. ReadsHead tokens.now depth at f)
        (λ e. Fails tokens.now depth at (Nt LE ∷ []) [] e) }
{
    let inner = opened(at, depth)?;
    let name = expect(tokens, at + 1, Wanted::Name)?;
    let param = parameter(alloc, tokens, at + 2, inner)?;
    expect(tokens, param.next, Wanted::Colon)?;
    let gives = whole_type(alloc, tokens, param.next + 1, inner)?;
    expect(tokens, gives.next, Wanted::Dot)?;
    let head = Head {
        word: word.span,
        name: name.span,
        parameter: param.name.span,
        takes: param.ty,
        gives: gives.ty,
    };
    Ok(FoundHead {
        head,
        next: gives.next + 1,
    })
}

/// The name of gen name . where the word stands at `at`.
pub(crate) fn gen_head(
    tokens: &[Token],
    at: usize,
    depth: u64,
    word: Token,
) -> Result<Token, Stopped>
    requires depth { depth ≤ 200 }
    requires at { at ≤ length tokens.now }
    requires word { next_of table want.Gen (slice_get tokens.now at) ≡ Some word }
    ensures { MatchResult result (λ name. ReadsGenHead tokens.now depth at word name)
        (λ e. Fails tokens.now depth at (Nt LE ∷ []) [] e) }
{
    opened(at, depth)?;
    let name = expect(tokens, at + 1, Wanted::Name)?;
    expect(tokens, at + 2, Wanted::Dot)?;
    Ok(name)
}
