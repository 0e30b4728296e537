// The next token.
ghost use Rattle.std.specs.Prelude.{◌≡◌, ◌+◌, ◌≤◌, ◌<◌, slice_get, MatchResult, Some, None};
ghost use Rattle.text_core.specs.Going.{next_of};
ghost use Rattle.f_grammar.specs.Machine.{fits, table};
ghost use Rattle.f_grammar.specs.declared.cursor.Stopped.TheVariants as stopped;

use f_lexer::{Kind, Token};
use std::alloc::{AllocError, AllocFailed};

/// How many constructs may be open at a token.
pub const OPEN: u64 = 200;

/// The classes of tokens that a form may owe (own choice). `Number` is a plain number.
#[derive(Clone, Copy, Debug, PartialEq, Eq)]
pub enum Wanted {
    Name,
    Number,
    LeftParen,
    RightParen,
    RightAngle,
    LeftBracket,
    RightBracket,
    Comma,
    Dot,
    Colon,
    Equals,
    In,
    As,
    Assign,
    Arrow,
    Star,
    Fix,
    Gen,
    Let,
    Pack,
    Open,
}

/// Why a reading stopped, and at which token by number, where the end counts as one more. Each function that reads a
/// form stops for these reasons alone, at the first token that gives one.
#[derive(Debug, Drop)]
pub enum Stopped {
    /// Memory is wanted.
    Memory,
    /// The form cannot go on with this token, or cannot end here.
    Unexpected(usize),
    /// With this token more constructs would be open than may be.
    TooDeep(usize),
}

impl<T: Drop> From<AllocFailed<T>> for Stopped {
    ghost from_gives = { λ _ e. e ≡ stopped.Memory };

    fn from(_: AllocFailed<T>) -> Stopped {
        Stopped::Memory
    }
}

impl From<AllocError> for Stopped {
    ghost from_gives = { λ _ e. e ≡ stopped.Memory };

    fn from(_: AllocError) -> Stopped {
        Stopped::Memory
    }
}

/// The token at a place, or none at the end.
pub fn peek(tokens: &[Token], at: usize) -> Option<Token>
    ensures { result ≡ slice_get tokens.now at }
{
    tokens.get(at).copied()
}

fn fits_kind(wanted: Wanted, kind: Kind) -> bool
    ensures { result ≡ fits wanted kind }
{
    match wanted {
        Wanted::Name => matches!(kind, Kind::Name),
        Wanted::Number => matches!(kind, Kind::Plain(_)),
        Wanted::LeftParen => matches!(kind, Kind::LeftParen),
        Wanted::RightParen => matches!(kind, Kind::RightParen),
        Wanted::RightAngle => matches!(kind, Kind::RightAngle),
        Wanted::LeftBracket => matches!(kind, Kind::LeftBracket),
        Wanted::RightBracket => matches!(kind, Kind::RightBracket),
        Wanted::Comma => matches!(kind, Kind::Comma),
        Wanted::Dot => matches!(kind, Kind::Dot),
        Wanted::Colon => matches!(kind, Kind::Colon),
        Wanted::Equals => matches!(kind, Kind::Equals),
        Wanted::In => matches!(kind, Kind::In),
        Wanted::As => matches!(kind, Kind::As),
        Wanted::Assign => matches!(kind, Kind::Assign),
        Wanted::Arrow => matches!(kind, Kind::Arrow),
        Wanted::Star => matches!(kind, Kind::Star),
        Wanted::Fix => matches!(kind, Kind::Fix),
        Wanted::Gen => matches!(kind, Kind::Gen),
        Wanted::Let => matches!(kind, Kind::Let),
        Wanted::Pack => matches!(kind, Kind::Pack),
        Wanted::Open => matches!(kind, Kind::Open),
    }
}

/// The token at a place, where it is one that is wanted.
pub fn take(tokens: &[Token], at: usize, wanted: Wanted) -> Option<Token>
    ensures { result ≡ next_of table wanted (slice_get tokens.now at) }
{
    let token = peek(tokens, at)?;
    if fits_kind(wanted, token.kind) {
        Some(token)
    } else {
        None
    }
}

/// The token at a place, which must be one that is wanted.
pub fn expect(tokens: &[Token], at: usize, wanted: Wanted) -> Result<Token, Stopped>
    ensures { MatchResult result (λ t. next_of table wanted (slice_get tokens.now at) ≡ Some t)
        (λ e. (e ≡ stopped.Unexpected at) × (next_of table wanted (slice_get tokens.now at) ≡ None)) }
{
    match take(tokens, at, wanted) {
        Some(token) => Ok(token),
        None => Err(Stopped::Unexpected(at)),
    }
}

/// One more open construct, from the token at a place on.
pub fn opened(at: usize, depth: u64) -> Result<u64, Stopped>
    requires { depth ≤ 200 }
    ensures { MatchResult result (λ n. (n ≡ depth + 1) × (depth < 200))
        (λ e. (e ≡ stopped.TooDeep at) × (200 ≤ depth)) }
{
    if depth >= OPEN {
        Err(Stopped::TooDeep(at))
    } else {
        Ok(depth + 1)
    }
}
