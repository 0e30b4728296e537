// The next tokens.
ghost use Rattle.std.specs.Prelude.{◌≡◌, ◌≤◌, slice_get, nat_abs};
ghost use Rattle.text_core.specs.Going.{next_of};
ghost use Rattle.t_text.specs.GrammarTable.{fits, table, register_of, value_of, flag_of};
ghost use Rattle.t_text.specs.Text.{most_open};
ghost use Rattle.t_shapes.specs.Cursor.{IsExpected, AreExpected, IsHeld, IsOpened};
ghost use Rattle.t_shapes.specs.declared.cursor.Stopped.TheVariants as stopped;
ghost use Rattle.t_text.specs.declared.wanted.Wanted.TheVariants as want;
ghost use Rattle.t_text.specs.Kept.{tokens_of};

use idx_core::Span;
use std::alloc::{AllocError, AllocFailed};
use t_text::{Kind, Token, Tokens, Wanted};

/// How many constructs may be open at a token.
pub const MOST_OPEN: u64 = 2000;

/// Why a reading stopped, and at which token by number, where the end counts as one more. Each function that reads a
/// form stops for these reasons alone, at the first token that gives one.
#[derive(Debug, Drop)]
pub enum Stopped {
    /// Memory is wanted.
    Memory,
    /// The form cannot go on with this token, or cannot end here.
    Unexpected(usize),
    /// With this token more constructs would be open than may be.
    TooDeep(usize),
}

impl<T: Drop> From<AllocFailed<T>> for Stopped {
    ghost from_gives = { λ _ e. e ≡ stopped.Memory };

    fn from(_: AllocFailed<T>) -> Stopped {
        Stopped::Memory
    }
}

impl From<AllocError> for Stopped {
    ghost from_gives = { λ _ e. e ≡ stopped.Memory };

    fn from(_: AllocError) -> Stopped {
        Stopped::Memory
    }
}

/// The token at a place, or none at the end.
#[inline(always)]
pub fn peek(tokens: &Tokens, at: usize) -> Option<Token>
    ensures { result ≡ slice_get (tokens_of tokens.now) at }
{
    tokens.get(at)
}

// the flag that a number is
fn flag_in(kind: Kind) -> bool
    ensures { result ≡ flag_of kind }
{
    match kind {
        Kind::Plain(value) => value == 1,
        Kind::Negative(value) => value == 1,
        _ => false,
    }
}

fn is_flag(kind: Kind) -> bool
    ensures { result ≡ fits want.Flag kind }
{
    match kind {
        Kind::Plain(value) => value == 0 || value == 1,
        Kind::Negative(value) => value == 0,
        _ => false,
    }
}

#[inline(always)]
fn fits_kind(wanted: Wanted, kind: Kind) -> bool
    ensures { result ≡ fits wanted kind }
{
    match wanted {
        Wanted::Name => matches!(kind, Kind::Name),
        Wanted::Register => matches!(kind, Kind::Register(_)),
        Wanted::Number => matches!(kind, Kind::Plain(_)),
        Wanted::Flag => is_flag(kind),
        Wanted::LeftBracket => matches!(kind, Kind::LeftBracket),
        Wanted::RightBracket => matches!(kind, Kind::RightBracket),
        Wanted::LeftBrace => matches!(kind, Kind::LeftBrace),
        Wanted::RightBrace => matches!(kind, Kind::RightBrace),
        Wanted::RightAngle => matches!(kind, Kind::RightAngle),
        Wanted::Comma => matches!(kind, Kind::Comma),
        Wanted::Dot => matches!(kind, Kind::Dot),
        Wanted::Colon => matches!(kind, Kind::Colon),
        Wanted::Caret => matches!(kind, Kind::Caret),
        Wanted::Tal => matches!(kind, Kind::Tal),
        Wanted::Code => matches!(kind, Kind::Code),
        Wanted::As => matches!(kind, Kind::As),
        Wanted::Int => matches!(kind, Kind::Int),
    }
}

/// The token at a place, where it is one that is wanted.
#[inline(always)]
pub fn take(tokens: &Tokens, at: usize, wanted: Wanted) -> Option<Token>
    ensures { result ≡ next_of table wanted (slice_get (tokens_of tokens.now) at) }
{
    let token = peek(tokens, at)?;
    if fits_kind(wanted, token.kind) {
        Some(token)
    } else {
        None
    }
}

/// The token at a place, which must be one that is wanted.
#[inline(always)]
pub fn expect(tokens: &Tokens, at: usize, wanted: Wanted) -> Result<Token, Stopped>
    ensures { IsExpected (tokens_of tokens.now) at wanted result }
{
    match take(tokens, at, wanted) {
        Some(token) => Ok(token),
        None => Err(Stopped::Unexpected(at)),
    }
}

/// The tokens at a place and after it, which must be of these classes.
pub fn expect_two(
    tokens: &Tokens,
    at: usize,
    first: Wanted,
    second: Wanted,
) -> Result<(Token, Token), Stopped>
    ensures { AreExpected (tokens_of tokens.now) at first second result }
{
    let one = expect(tokens, at, first)?;
    let two = expect(tokens, at + 1, second)?;
    Ok((one, two))
}

/// The number of the register at a place, where one must stand, with its place in the text.
#[inline(always)]
pub fn expect_register(tokens: &Tokens, at: usize) -> Result<(u64, Span), Stopped>
    ensures { IsHeld (λ c. (register_of c.kind, c.span)) (tokens_of tokens.now) at want.Register result }
{
    let token = expect(tokens, at, Wanted::Register)?;
    match token.kind {
        Kind::Register(number) => Ok((number, token.span)),
        _ => unreachable!(),
    }
}

/// The field number at a place, where one must stand.
pub fn expect_index(tokens: &Tokens, at: usize) -> Result<u64, Stopped>
    ensures { IsHeld (λ c. nat_abs (value_of c.kind)) (tokens_of tokens.now) at want.Number result }
{
    let token = expect(tokens, at, Wanted::Number)?;
    match token.kind {
        Kind::Plain(value) => Ok(value.unsigned_abs()),
        _ => unreachable!(),
    }
}

/// Whether the flag at a place, where one must stand, is that of an initialised field.
pub(crate) fn expect_flag(tokens: &Tokens, at: usize) -> Result<bool, Stopped>
    ensures { IsHeld (λ c. flag_of c.kind) (tokens_of tokens.now) at want.Flag result }
{
    let token = expect(tokens, at, Wanted::Flag)?;
    Ok(flag_in(token.kind))
}

/// One more open construct, from the token at a place on.
pub fn opened(at: usize, depth: u64) -> Result<u64, Stopped>
    requires { depth ≤ most_open }
    ensures { IsOpened at depth result }
{
    if depth >= MOST_OPEN {
        Err(Stopped::TooDeep(at))
    } else {
        Ok(depth + 1)
    }
}
