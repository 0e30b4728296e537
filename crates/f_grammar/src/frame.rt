// What a reader is about to do.

use crate::RawType;
use crate::forest::Forest;
use crate::part::Part;
use f_lexer::Token;
use idx_core::{Op, Span};

/// The head of a function: its word, its name, its parameter, and the types of the parameter and of the body.
#[derive(Drop)]
pub(crate) struct Head {
    pub word: Span,
    pub name: Span,
    pub parameter: Span,
    pub takes: RawType,
    pub gives: RawType,
}

/// An `open` up to its `in`: its word, the names that it binds, and the package.
#[derive(Drop)]
pub(crate) struct Opening {
    pub word: Span,
    pub ty: Span,
    pub name: Span,
    pub first: Part,
}

/// What is done with a term that was read: the form around it, as far as it was read, or what may follow on the term.
#[derive(Drop)]
pub(crate) enum Frame {
    Paren { left: Span },
    First { left: Span },
    Next { left: Span, fields: Vec<u64> },
    Proj { hash: Span, field: u64 },
    Test { word: Span },
    Zero { word: Span, test: Part },
    Other { word: Span, test: Part, zero: Part },
    Fix(Head),
    Gen { word: Span, name: Span },
    Let { word: Span, name: Span },
    LetBody { word: Span, name: Span, first: Part },
    Pack { word: Span, hidden: RawType },
    Open { word: Span, ty: Span, name: Span },
    OpenBody(Opening),
    Ref { word: Span },
    Deref { sign: Span },
    Argument { function: Part },
    Right { op: Op, left: Part },
    Assigned { target: Part },
    MoreParts,
    MoreFactors,
    MoreSums,
    MoreAssign,
}

/// What is next: a whole term is read, or a part of one, or a term was read.
#[derive(Drop)]
pub(crate) enum Control {
    Term,
    Part,
    Give(Part),
}

/// The tokens, the forms around the next token, innermost last, the nodes that were made, the number of the next token,
/// and how many constructs are open there.
#[derive(Drop)]
pub(crate) struct Reader<'a> {
    pub tokens: &'a [Token],
    pub frames: Vec<Frame>,
    pub forest: Forest,
    pub at: usize,
    pub depth: u64,
}
