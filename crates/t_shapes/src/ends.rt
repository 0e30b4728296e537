// The reading of the ends of blocks.
ghost use Rattle.std.specs.Prelude.{◌≤◌, length};
ghost use Rattle.t_shapes.specs.Reads.{IsEnd};
ghost use Rattle.t_text.specs.Kept.{tokens_of};

use crate::parts::int;
use crate::raw::RawEnd;
use crate::steps::up_to;
use crate::values::value;
use crate::{Stopped, peek};
use idx_core::Span;
use std::alloc::Global;
use t_text::{Kind, Tokens};

/// The end of a block that was read, with its place, and the number of the token after it.
#[derive(Drop)]
pub struct FoundEnd {
    pub last: (RawEnd, Span),
    pub next: usize,
}

/// End ::= jmp V | halt [ int ]
pub fn end(alloc: Global, tokens: &Tokens, at: usize) -> Result<FoundEnd, Stopped>
    requires { at ≤ length (tokens_of tokens.now) }
    ensures { IsEnd (tokens_of tokens.now) at result }
{
    let word = match peek(tokens, at) {
        Some(word) => word,
        None => return Err(Stopped::Unexpected(at)),
    };
    let next = at + 1;
    match word.kind {
        Kind::Jmp => {
            let target = value(alloc, tokens, next, 0, false)?;
            Ok(FoundEnd {
                last: (RawEnd::Jmp(target.value), up_to(word, target.place.end)),
                next: target.next,
            })
        }
        Kind::Halt => {
            let close = int(tokens, next)?;
            Ok(FoundEnd {
                last: (RawEnd::Halt, up_to(word, close)),
                next: at + 4,
            })
        }
        _ => Err(Stopped::Unexpected(at)),
    }
}
