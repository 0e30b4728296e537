// Tokens in 8 bytes each.
ghost use Rattle.std.specs.Prelude.{◌≡◌, ◌≢◌, ◌<◌, ◌+◌, ◌^◌, ◌++◌, [], ◌∷◌, length, slice_get, get_or, OnOk, IfSome};
ghost use Rattle.t_text.specs.Kept.{kind_of, nothing, short_token, token_in, tokens_of, IsWhole};

use crate::tagged::{Tag, Tagged, kind_of};
use crate::{Kind, Token};
use idx_core::{OutOfMemory, Span};
use std::alloc::Global;

// A token by the parts of its kind, its length in bytes and its start, where they are small. A length of 0 stands for
// a long token, whose place among these is the start.
#[derive(Clone, Copy)]
struct Word {
    tag: Tag,
    length: u8,
    number: u16,
    start: u32,
}

/// The tokens of a text: 8 bytes each, and 32 more for one that is longer than 255 bytes, whose number is above 65535
/// or below -65535, or that stands past the first 4 GiB (own choice).
#[derive(Drop)]
pub struct Tokens {
    words: Vec<Word>,
    long: Vec<Token>,
}

// a token by its parts, where they are small
#[inline(always)]
fn short(kind: &Tagged, start: usize, end: usize) -> Option<Word>
    requires { start < end }
    ensures { IfSome result (λ w. (w.length ≢ 0) × (short_token w ≡
        record { kind = kind.now; span = record { start = start; end = end } })) }
{
    if end - start > u8::MAX as usize || start > u32::MAX as usize {
        return None;
    }
    let (tag, number) = kind.small()?;
    Some(Word {
        tag,
        length: (end - start) as u8,
        number,
        start: start as u32,
    })
}

// the token that a word of another length than 0 is
#[inline(always)]
fn short_token(word: Word) -> Token
    ensures { result ≡ short_token word }
{
    let start = word.start as u64;
    let span = Span {
        start,
        end: start + word.length as u64,
    };
    let kind = kind_of(word.tag, word.number as u64);
    Token { kind, span }
}

impl Tokens {
    /// No tokens.
    pub fn new(alloc: Global) -> Tokens
        ensures { (tokens_of result ≡ []) × IsWhole result }
    {
        Tokens {
            words: Vec::new(alloc),
            long: Vec::new(alloc),
        }
    }

    /// No tokens, with room for so many where memory allows; else they grow as they come.
    pub fn with_room(alloc: Global, room: usize) -> Tokens
        ensures { (tokens_of result ≡ []) × IsWhole result }
    {
        let mut tokens = Tokens::new(alloc);
        let _ = tokens.words.reserve(room);
        tokens
    }

    /// How many tokens they are.
    #[inline(always)]
    pub fn len(&self) -> usize
        ensures { result ≡ length (tokens_of self.now) }
    {
        self.words.len()
    }

    // the long token at a place, where there is one
    fn long_token(&self, at: u32) -> Token
        ensures { result ≡ get_or self.now.long.items at nothing }
    {
        match self.long.get(at as usize) {
            Some(token) => *token,
            None => Token {
                kind: Kind::Name,
                span: Span { start: 0, end: 0 },
            },
        }
    }

    // the token that a word stands for
    #[inline(always)]
    fn token(&self, word: Word) -> Token
        ensures { result ≡ token_in self.now.long.items word }
    {
        if word.length == 0 {
            return self.long_token(word.start);
        }
        short_token(word)
    }

    /// The token at a place, or none at the end.
    #[inline(always)]
    pub fn get(&self, at: usize) -> Option<Token>
        ensures { result ≡ slice_get (tokens_of self.now) at }
    {
        let word = self.words.get(at)?;
        Some(self.token(*word))
    }

    /// One token more, kept whole.
    #[inline(never)]
    pub fn add(&mut self, token: Token) -> Result<(), OutOfMemory>
        ensures { IsWhole self.old → OnOk result (IsWhole self.new
            × (tokens_of self.new ≡ tokens_of self.old ++ token ∷ [])) }
    {
        let at = self.long.len();
        if at > u32::MAX as usize {
            return Err(OutOfMemory);
        }
        self.long.push(token)?;
        let word = Word {
            tag: Tag::Name,
            length: 0,
            number: 0,
            start: at as u32,
        };
        self.words.push(word)?;
        Ok(())
    }

    // one token more, with a number and a length of one byte each
    #[inline(always)]
    pub(crate) fn push_short(
        &mut self,
        tag: Tag,
        number: u8,
        length: u8,
        start: usize,
    ) -> Result<(), OutOfMemory>
        requires not_empty { length ≢ 0 }
        requires end { start + length < 2 ^ 64 }
        ensures { IsWhole self.old → OnOk result (IsWhole self.new × (tokens_of self.new ≡ tokens_of self.old
            ++ record { kind = kind_of tag number; span = record { start = start; end = start + length } } ∷ [])) }
    {
        if start > u32::MAX as usize {
            let start = start as u64;
            let span = Span {
                start,
                end: start + length as u64,
            };
            let kind = kind_of(tag, number as u64);
            return self.add(Token { kind, span });
        }
        let word = Word {
            tag,
            length,
            number: number as u16,
            start: start as u32,
        };
        self.words.push(word)?;
        Ok(())
    }

    // one token more, of a kind from one place of a text to another
    #[inline(always)]
    pub(crate) fn push(&mut self, kind: Tagged, start: usize, end: usize) -> Result<(), OutOfMemory>
        requires { start < end }
        ensures { IsWhole self.old → OnOk result (IsWhole self.new × (tokens_of self.new ≡ tokens_of self.old
            ++ record { kind = kind; span = record { start = start; end = end } } ∷ [])) }
    {
        match short(&kind, start, end) {
            Some(word) => {
                self.words.push(word)?;
                Ok(())
            }
            None => {
                let span = Span {
                    start: start as u64,
                    end: end as u64,
                };
                let kind = kind.kind();
                self.add(Token { kind, span })
            }
        }
    }
}
