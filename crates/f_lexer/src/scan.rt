// What stands at a place of a source text.
ghost use Rattle.std.specs.Prelude.{◌≡◌, ◌≤◌, ◌<◌, ◌^◌, ℕ, pos, neg_ℤ, length, drop, true};
ghost use Rattle.text_core.specs.Tokens.{look};
ghost use Rattle.text_core.specs.Lexeme.{IsFound, piece, POther};
ghost use Rattle.f_lexer.specs.Source.{source, words, word_in, signs};
ghost use Rattle.f_lexer.specs.Scan.{at_pair, plain_found, negative_found};

use crate::kind::Kind;
use text_core::{Digits, Found, Lexeme, next_lexeme};

fn word(bytes: &[u8]) -> Kind
    ensures { result ≡ word_in words bytes.now }
{
    if bytes == b"fix".as_slice() {
        Kind::Fix
    } else if bytes == b"gen".as_slice() {
        Kind::Gen
    } else if bytes == b"all".as_slice() {
        Kind::All
    } else if bytes == b"int".as_slice() {
        Kind::Int
    } else if bytes == b"if0".as_slice() {
        Kind::If0
    } else if bytes == b"let".as_slice() {
        Kind::Let
    } else if bytes == b"in".as_slice() {
        Kind::In
    } else if bytes == b"pack".as_slice() {
        Kind::Pack
    } else if bytes == b"open".as_slice() {
        Kind::Open
    } else if bytes == b"as".as_slice() {
        Kind::As
    } else if bytes == b"some".as_slice() {
        Kind::Some
    } else if bytes == b"ref".as_slice() {
        Kind::Ref
    } else {
        Kind::Name
    }
}

fn sign(b: u8) -> Option<Kind>
    ensures { result ≡ look signs b }
{
    match b {
        b'(' => Some(Kind::LeftParen),
        b')' => Some(Kind::RightParen),
        b'<' => Some(Kind::LeftAngle),
        b'>' => Some(Kind::RightAngle),
        b'[' => Some(Kind::LeftBracket),
        b']' => Some(Kind::RightBracket),
        b',' => Some(Kind::Comma),
        b'.' => Some(Kind::Dot),
        b':' => Some(Kind::Colon),
        b'+' => Some(Kind::Plus),
        b'-' => Some(Kind::Minus),
        b'*' => Some(Kind::Star),
        b'#' => Some(Kind::Hash),
        b'=' => Some(Kind::Equals),
        b'!' => Some(Kind::Bang),
        _ => None,
    }
}

fn is_pair(text: &[u8], at: usize, first: u8, second: u8) -> bool
    requires { at < length text.now }
    ensures { result ≡ at_pair first second (drop at text.now) }
{
    text[at] == first && at + 1 < text.len() && text[at + 1] == second
}

// minus a value of at most 2 to the power of 63
fn negated(value: u64) -> i64
    requires { value ≤ 2 ^ 63 }
    ensures { result ≡ neg_ℤ (pos value) }
{
    if value <= i64::MAX as u64 {
        -(value as i64)
    } else {
        i64::MIN
    }
}

fn plain(digits: Digits) -> Found<Kind>
    ensures { result ≡ plain_found digits }
{
    if digits.fits && digits.value <= i64::MAX as u64 {
        Found::Read(Kind::Plain(digits.value as i64), digits.end)
    } else {
        Found::Large(digits.end)
    }
}

fn negative(digits: Digits) -> Found<Kind>
    requires { digits.fits ≡ true → digits.value ≤ 2 ^ 63 }
    ensures { result ≡ negative_found digits }
{
    if digits.fits {
        Found::Read(Kind::Negative(negated(digits.value)), digits.end)
    } else {
        Found::Large(digits.end)
    }
}

fn other(text: &[u8], at: usize) -> Found<Kind>
    requires at { at < length text.now }
    requires other { piece (drop at text.now) ≡ POther }
    ensures { IsFound source text.now at result }
{
    if is_pair(text, at, b'-', b'>') {
        return Found::Read(Kind::Arrow, at + 2);
    }
    if is_pair(text, at, b':', b'=') {
        return Found::Read(Kind::Assign, at + 2);
    }
    match sign(text[at]) {
        Some(kind) => Found::Read(kind, at + 1),
        None => Found::Bad,
    }
}

/// What stands at a place before the end of a source text.
pub fn find(text: &[u8], at: usize) -> Found<Kind>
    requires { at < length text.now }
    ensures { IsFound source text.now at result }
{
    match next_lexeme(text, at) {
        Lexeme::Blank(end) => Found::Skip(end),
        Lexeme::Word(end) => Found::Read(word(&text[at..end]), end),
        Lexeme::Plain(digits) => plain(digits),
        Lexeme::Negative(digits) => negative(digits),
        Lexeme::Other => other(text, at),
    }
}
