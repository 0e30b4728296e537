// Tokens, and the cutting of a text into tokens.
ghost use Rattle.std.specs.Prelude.{◌≡◌, ◌≢◌, ◌≤◌, ◌<◌, ℕ, length, slice_range, List, MatchResult, IsErrAnd};
ghost use Rattle.idx_core.specs.declared.span.Span as place;
ghost use Rattle.f_terms.specs.declared.fault.Code as codes;
ghost use Rattle.f_terms.specs.declared.fault.FFault.TheVariants as fault;
ghost use Rattle.f_lexer.specs.declared.token.Token as tokens_of;
ghost use Rattle.f_lexer.specs.Source.{IsCut, IsTokenFault, FirstTokenFault};

use crate::kind::Kind;
use crate::scan::find;
use f_terms::{Code, FFault};
use idx_core::Span;
use std::alloc::Global;
use text_core::Found;

/// A token of a text: its kind, and the bytes that it takes.
#[derive(Clone, Copy, Debug, PartialEq, Eq, Drop)]
pub struct Token {
    pub kind: Kind,
    pub span: Span,
}

impl Token {
    /// The bytes of the token in the text that it was cut from.
    pub fn text<'a>(&self, source: &'a [u8]) -> &'a [u8]
        requires ordered { self.now.span.start ≤ self.now.span.end }
        requires in_range { self.now.span.end ≤ length source.now }
        ensures { result.now ≡ slice_range source.now self.now.span.start self.now.span.end }
    {
        &source[self.span.start as usize..self.span.end as usize]
    }
}

fn refused(code: Code, start: usize, end: usize) -> FFault
    ensures { result ≡ fault.Refused code (record { start = start; end = end }) }
{
    FFault::Refused {
        code,
        span: Span {
            start: start as u64,
            end: end as u64,
        },
    }
}

/// The tokens of a text, in order (own choice). Refused by E01 at a byte that begins no token, and by E02 at a
/// number out of range, whichever comes first.
pub fn tokens(alloc: Global, text: &[u8]) -> Result<Vec<Token>, FFault>
    ensures right { MatchResult result (λ w. IsCut text.now w.items) (λ f. IsTokenFault text.now f) }
    ensures cut { (w : List tokens_of.Token) → IsCut text.now w → MatchResult result (λ v. v.items ≡ w)
        (λ f. f ≡ fault.Memory) }
    ensures refused { (code : codes.Code) (span : place.Span) → FirstTokenFault text.now code span → IsErrAnd result
        (λ f. f ≢ fault.Memory → f ≡ fault.Refused code span) }
{
    let mut out = Vec::new(alloc);
    let mut at = 0usize;
    while at < text.len() {
        match find(text, at) {
            Found::Skip(end) => {
                at = end;
            }
            Found::Read(kind, end) => {
                let span = Span {
                    start: at as u64,
                    end: end as u64,
                };
                match out.push(Token { kind, span }) {
                    Ok(()) => at = end,
                    Err(_) => return Err(FFault::Memory),
                }
            }
            Found::Large(end) => return Err(refused(Code::E02, at, end)),
            Found::Bad => return Err(refused(Code::E01, at, at + 1)),
        }
    }
    Ok(out)
}
