// The cutting of an assembly text into tokens.
ghost use Rattle.std.specs.Prelude.{◌≡◌, ◌≢◌, ◌≤◌, ◌<◌, ℕ, length, slice_range, List, MatchResult, IsErrAnd};
ghost use Rattle.idx_core.specs.declared.span.Span as place;
ghost use Rattle.t_terms.specs.declared.fault.TCode as codes;
ghost use Rattle.t_terms.specs.declared.fault.TFault.TheVariants as fault;
ghost use Rattle.t_text.specs.declared.token.Token as token;
ghost use Rattle.t_text.specs.Tokens.{IsCut};
ghost use Rattle.t_text.specs.Kept.{tokens_of};
ghost use Rattle.t_text.specs.Cut.{IsTokenFault, FirstTokenFault};

use crate::kept::Tokens;
use crate::scan::{Short, find, short_at};
use crate::tagged::Tag;
use idx_core::Span;
use std::alloc::Global;
use t_terms::{TCode, TFault};
use text_core::Found;

fn refused(code: TCode, start: usize, end: usize) -> TFault
    ensures { result ≡ fault.Refused code (record { start = start; end = end }) }
{
    TFault::Refused {
        code,
        span: Span {
            start: start as u64,
            end: end as u64,
        },
    }
}

/// The tokens of an assembly text, in order (own choice). Refused by T01 at a byte that begins no token, and by T02
/// at a number out of range, whichever comes first.
pub fn tokens(alloc: Global, text: &[u8]) -> Result<Tokens, TFault>
    ensures right { MatchResult result (λ w. IsCut text.now (tokens_of w)) (λ f. IsTokenFault text.now f) }
    ensures cut { (w : List token.Token) → IsCut text.now w →
        MatchResult result (λ v. tokens_of v ≡ w) (λ f. f ≡ fault.Memory) }
    ensures refused { (code : codes.TCode) (span : place.Span) → FirstTokenFault text.now code span →
        IsErrAnd result (λ f. f ≢ fault.Memory → f ≡ fault.Refused code span) }
{
    let mut out = Tokens::with_room(alloc, text.len() / 2);
    let mut at = 0usize;
    while at < text.len() {
        match short_at(text, at) {
            Short::Blank => {
                at += 1;
            }
            Short::Sign(tag) => {
                out.push_short(tag, 0, 1, at)?;
                at += 1;
            }
            Short::Register(number) => {
                out.push_short(Tag::Register, number, 2, at)?;
                at += 2;
            }
            Short::Other => match find(text, at) {
                Found::Skip(end) => {
                    at = end;
                }
                Found::Read(kind, end) => {
                    out.push(kind, at, end)?;
                    at = end;
                }
                Found::Large(end) => return Err(refused(TCode::T02, at, end)),
                Found::Bad => return Err(refused(TCode::T01, at, at + 1)),
            },
        }
    }
    Ok(out)
}
