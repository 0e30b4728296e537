// The reading of data tuples. Around them no construct is open.
ghost use Rattle.std.specs.Prelude.{◌≤◌, length};
ghost use Rattle.t_shapes.specs.Reads.{IsTuple, AreDatums, IsDatum};
ghost use Rattle.t_text.specs.Kept.{tokens_of};

use crate::raw::RawDatum;
use crate::values::value;
use crate::{Stopped, expect, peek, take, whole_type};
use std::alloc::Global;
use t_text::{Kind, Tokens, Wanted};

/// The fields of a data tuple that were read, and the number of the token after them.
#[derive(Drop)]
pub struct FoundTuple {
    pub fields: Vec<RawDatum>,
    pub next: usize,
}

// a field that was read, and the number of the token after it
#[derive(Drop)]
struct FoundDatum {
    datum: RawDatum,
    next: usize,
}

/// < > or < W : T , .. , W : T >
pub fn tuple(alloc: Global, tokens: &Tokens, at: usize) -> Result<FoundTuple, Stopped>
    requires { at ≤ length (tokens_of tokens.now) }
    ensures { IsTuple (tokens_of tokens.now) at result }
{
    let bracket = match peek(tokens, at) {
        Some(token) => token,
        None => return Err(Stopped::Unexpected(at)),
    };
    match bracket.kind {
        Kind::LeftAngle => datums(alloc, tokens, at + 1),
        _ => Err(Stopped::Unexpected(at)),
    }
}

// W : T , .. , W : T and the closing bracket, or the bracket alone
fn datums(alloc: Global, tokens: &Tokens, at: usize) -> Result<FoundTuple, Stopped>
    requires { at ≤ length (tokens_of tokens.now) }
    ensures { AreDatums (tokens_of tokens.now) at result }
{
    let mut fields = Vec::new(alloc);
    if let Some(_) = take(tokens, at, Wanted::RightAngle) {
        return Ok(FoundTuple {
            fields,
            next: at + 1,
        });
    }
    let first = datum(alloc, tokens, at)?;
    let mut next = first.next;
    fields.push(first.datum)?;
    while let Some(_) = take(tokens, next, Wanted::Comma) {
        let found = datum(alloc, tokens, next + 1)?;
        next = found.next;
        fields.push(found.datum)?;
    }
    expect(tokens, next, Wanted::RightAngle)?;
    Ok(FoundTuple {
        fields,
        next: next + 1,
    })
}

// W : T, in the bracket of a tuple
fn datum(alloc: Global, tokens: &Tokens, at: usize) -> Result<FoundDatum, Stopped>
    requires { at ≤ length (tokens_of tokens.now) }
    ensures { IsDatum (tokens_of tokens.now) at result }
{
    let word = value(alloc, tokens, at, 1, true)?;
    expect(tokens, word.next, Wanted::Colon)?;
    let found = whole_type(alloc, tokens, word.next + 1, 1)?;
    Ok(FoundDatum {
        datum: RawDatum {
            value: word.value,
            place: word.place,
            ty: found.ty,
        },
        next: found.next,
    })
}
