// The reading of a term by a loop, one token ahead, as the table's machine reads.
ghost use Rattle.std.specs.Prelude.{◌≡◌, ◌<◌, ◌∷◌, [], false, MatchResult};
ghost use Rattle.f_grammar.specs.Raw.{Piece};
ghost use Rattle.f_grammar.specs.Machine.{OfTerm};
ghost use Rattle.f_grammar.specs.Forest.{size, Stores, Counted};
ghost use Rattle.f_grammar.specs.ReadsTerms.{Keeps, ReadsTerm};
ghost use Rattle.f_grammar.specs.Frames.{IsStop, Leads};
ghost use Rattle.f_grammar.specs.declared.frame.Control.TheVariants as control;

use crate::begin::{begin_part, begin_term};
use crate::forest::Forest;
use crate::frame::{Control, Reader};
use crate::part::{FoundTerm, Kept, Part};
use crate::resume::resume;
use crate::{RawTerm, Stopped};
use f_lexer::Token;
use std::alloc::Global;

fn start<'a>(alloc: Global, tokens: &'a [Token]) -> Reader<'a>
    ensures { Leads tokens.now result control.Term × (result.tokens.now ≡ tokens.now) }
{
    Reader {
        tokens,
        frames: Vec::new(alloc),
        forest: Forest {
            nodes: Vec::new(alloc),
            full: false,
        },
        at: 0,
        depth: 0,
    }
}

// What is kept of the whole term.
fn kept(forest: Forest, part: Part) -> Kept
    requires { forest.full ≡ false → part.node < size forest }
    ensures { (q : Piece) → Stores forest part q → Counted forest (OfTerm q ∷ []) → Keeps result q.tree }
{
    if forest.full {
        return Kept::TooMany(part.place);
    }
    Kept::Term(RawTerm::new(forest.nodes, part.node))
}

// The whole term, where no frame is left.
fn found(reader: Reader, part: Part) -> FoundTerm
    requires leads { Leads reader.tokens.now reader (control.Give part) }
    requires none { reader.frames.items ≡ [] }
    ensures { ReadsTerm reader.entry.tokens.now result }
{
    let next = reader.at;
    let kept = kept(reader.forest, part);
    FoundTerm { kept, next }
}

/// The longest term that begins with the first token, its names left aside; or where the reading stops.
pub fn whole_term(alloc: Global, tokens: &[Token]) -> Result<FoundTerm, Stopped>
    ensures { MatchResult result (λ f. ReadsTerm tokens.now f) (λ e. IsStop tokens.now e) }
{
    let mut reader = start(alloc, tokens);
    let mut control = Control::Term;
    loop {
        match control {
            Control::Term => {
                control = begin_term(alloc, &mut reader)?;
            }
            Control::Part => {
                control = begin_part(alloc, &mut reader)?;
            }
            Control::Give(part) => match reader.frames.pop() {
                Some(frame) => {
                    control = resume(alloc, &mut reader, frame, part)?;
                }
                None => return Ok(found(reader, part)),
            },
        }
    }
}
