// The choice of a hint: of the rows of a table the first whose tests all hold of what stands around a place.
ghost use Rattle.std.specs.Prelude.{◌≡◌};
ghost use Rattle.talc_faults.specs.Choice.{stands, parted, among, byte_class, class_of, fits, read, holds};
ghost use Rattle.talc_faults.specs.Choice.{all_hold, pick, lent_tests, lent};

use crate::around::{bytes_at, bytes_from};
use crate::words::is;
use text_core::{is_digit, is_letter};

/// What a test of a row is of.
#[derive(Clone, Copy, Debug, PartialEq, Eq, Drop)]
pub(crate) enum At {
    /// How the line begins that tells what was wanted and found.
    Told,
    /// The form of the type that is found, or where the name is bound that is unbound there.
    Kind,
    /// The bracket that is open, or the word that it belongs to.
    Inside,
    /// The token before the one before.
    Earlier,
    /// The token before.
    Before,
    /// The token at the place.
    Found,
    /// The token behind it.
    Behind,
}

/// Tests, each of them on one of some words, and the sentence. For any word that begins with a letter stands `@`, for
/// any number `1`, for none `$`, for the first byte of a Greek small letter `greek`, for that of a byte order mark
/// `mark`.
pub(crate) type Row = (&'static [(At, &'static str)], &'static str);

/// What stands around the place of a fault, and what is told of it.
#[derive(Drop)]
pub(crate) struct Facts<'a> {
    pub(crate) told: &'a [u8],
    pub(crate) kind: &'a [u8],
    pub(crate) inside: &'a [u8],
    pub(crate) earlier: &'a [u8],
    pub(crate) before: &'a [u8],
    pub(crate) found: &'a [u8],
    pub(crate) behind: &'a [u8],
}

// Whether a list of words begins with this one.
fn stands(words: &[u8], word: &[u8]) -> bool
    ensures { result ≡ stands words.now word.now }
{
    let size = word.len() as u64;
    is(bytes_at(words, 0, size), word) && parted(bytes_from(words, size))
}

// Whether a word ends before these.
fn parted(words: &[u8]) -> bool
    ensures { result ≡ parted words.now }
{
    match words.first() {
        Some(byte) => *byte == b' ',
        None => true,
    }
}

// Whether a word is among some, with blanks between.
fn among(words: &[u8], word: &[u8]) -> bool
    ensures { result ≡ among words.now word.now }
{
    if stands(words, word) {
        return true;
    }
    let mut at = 0;
    while at < words.len() {
        if words[at] == b' ' && stands(&words[at + 1..], word) {
            return true;
        }
        at += 1;
    }
    false
}

// The word for all that are like this token.
fn class_of(token: &[u8]) -> &'static str
    ensures { result.now ≡ class_of token.now }
{
    match token.first() {
        Some(byte) => byte_class(*byte),
        None => "$",
    }
}

// By its first byte.
fn byte_class(byte: u8) -> &'static str
    ensures { result.now ≡ byte_class byte }
{
    if is_letter(byte) {
        return "@";
    }
    if is_digit(byte) {
        return "1";
    }
    match byte {
        206 => "greek",
        239 => "mark",
        _ => "",
    }
}

// Whether a token is one of these, or like one.
fn fits(words: &[u8], token: &[u8]) -> bool
    ensures { result ≡ fits words.now token.now }
{
    among(words, token) || among(words, class_of(token).as_bytes())
}

// Whether a test holds.
fn holds(facts: &Facts, at: At, words: &[u8]) -> bool
    ensures { result ≡ holds (read facts.now) at words.now }
{
    match at {
        At::Told => is(bytes_at(facts.told, 0, words.len() as u64), words),
        At::Kind => among(words, facts.kind),
        At::Inside => fits(words, facts.inside),
        At::Earlier => fits(words, facts.earlier),
        At::Before => fits(words, facts.before),
        At::Found => fits(words, facts.found),
        At::Behind => fits(words, facts.behind),
    }
}

// Whether all tests hold.
fn all_hold(facts: &Facts, tests: &[(At, &'static str)]) -> bool
    ensures { result ≡ all_hold (read facts.now) (lent_tests tests.now) }
{
    for test in tests {
        if !holds(facts, test.0, test.1.as_bytes()) {
            return false;
        }
    }
    true
}

// The sentence of the first row whose tests all hold, or another one.
pub(crate) fn pick(facts: &Facts, rows: &[Row], otherwise: &'static str) -> &'static str
    ensures { result.now ≡ pick (read facts.now) (lent rows.now) otherwise.now }
{
    for row in rows {
        if all_hold(facts, row.0) {
            return row.1;
        }
    }
    otherwise
}
