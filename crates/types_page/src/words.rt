// The tokens of forms that mostly follow one another.
ghost use Rattle.std.specs.Prelude.{◌≡◌, ◌≤◌, ◌++◌, length, drop, OnOk};
ghost use Rattle.types_page.specs.Page.{bytes_of, from_byte, word};
ghost use Rattle.types_page.specs.Writing.{IsCursor};

use f_lexer::Token;
use idx_core::{OutOfMemory, Span};

// How far the tokens of a text have been gone through, for which byte.
#[derive(Drop)]
pub(crate) struct Cursor<'a> {
    pub(crate) tokens: &'a [Token],
    pub(crate) at: usize,
    pub(crate) byte: u64,
}

// The first token from number `from` on that begins at the byte or behind it.
#[tactic(auto, using(crate::proofs::Marks::token_facts))]
fn token_from(tokens: &[Token], from: usize, byte: u64) -> usize
    requires { from ≤ length tokens.now }
    ensures bound { result ≤ length tokens.now }
    ensures there { from_byte byte (drop from tokens.now) ≡ drop result tokens.now }
{
    let count = tokens.len();
    for i in from..count {
        if tokens[i].span.start >= byte {
            return i;
        }
    }
    count
}

impl<'a> Cursor<'a> {
    // The start of the tokens.
    pub(crate) fn first(tokens: &'a [Token]) -> Cursor<'a>
        ensures tokens { result.tokens ≡ tokens.entry }
        ensures cursor { IsCursor result }
    {
        Cursor {
            tokens,
            at: 0,
            byte: 0,
        }
    }

    // The token to begin with, for a byte.
    fn start(&self, byte: u64) -> usize
        requires { IsCursor self.now }
        ensures bound { result ≤ length self.now.tokens.now }
        ensures same { from_byte byte (drop result self.now.tokens.now) ≡ from_byte byte self.now.tokens.now }
    {
        if byte < self.byte {
            return 0;
        }
        self.at
    }

    // The tokens from a byte on. Where it stands before the last one, they are gone through anew.
    pub(crate) fn to(&mut self, byte: u64) -> &'a [Token]
        requires { IsCursor self.old }
        ensures cursor { IsCursor self.new }
        ensures tokens { self.new.tokens ≡ self.old.tokens }
        ensures there { result.now ≡ from_byte byte self.old.tokens.now }
    {
        let from = self.start(byte);
        let at = token_from(self.tokens, from, byte);
        self.at = at;
        self.byte = byte;
        &self.tokens[at..]
    }
}

// The bytes of a place in the text.
fn bytes_of(text: &[u8], place: Span) -> &[u8]
    ensures { result.now ≡ bytes_of text.now place }
{
    let behind = &text[text.len().min(place.start as usize)..];
    let size = place.end.saturating_sub(place.start) as usize;
    &behind[..behind.len().min(size)]
}

// The bytes of a token, where there are so many.
#[tactic(auto, using(crate::proofs::Marks::no_word))]
fn word_of<'a>(text: &'a [u8], tokens: &[Token], number: usize) -> &'a [u8]
    ensures { result.now ≡ word text.entry.now tokens.now number }
{
    if number < tokens.len() {
        return bytes_of(text, tokens[number].span);
    }
    b""
}

pub(crate) fn write_word(
    page: &mut Vec<u8>,
    text: &[u8],
    tokens: &[Token],
    number: usize,
) -> Result<(), OutOfMemory>
    ensures { OnOk result (page.new.items ≡ page.old.items ++ word text.now tokens.now number) }
{
    page.extend_from_slice(word_of(text, tokens, number))?;
    Ok(())
}
