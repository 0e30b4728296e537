// The line on what could stand at a place of a source text.
ghost use Rattle.std.specs.Prelude.{IfOk};
ghost use Rattle.talc_wanted.specs.SourceTable.{source_owes};
ghost use Rattle.talc_wanted.specs.SourceWords.{source_kinds};
ghost use Rattle.talc_wanted.specs.SourceText.{IsWanted};

use crate::source_table::{ENDS, Line, OTHERS, ROWS};
use crate::source_words::KINDS;
use crate::{Language, Row, line_of};
use f_grammar::{Wanted, peek, take};
use f_lexer::{Kind, Token, tokens};
use f_terms::FFault;
use idx_core::{OutOfMemory, Span};
use std::alloc::Global;

/// The language of the source.
struct Source;

impl Language for Source {
    type Class = Wanted;

    type Line = Line;

    type Kind = Kind;

    type Token = Token;

    type Tokens = Vec<Token>;

    ghost owes = { source_owes };

    ghost tells = { source_kinds };

    ghost tokens_of = { λ w. w.items };

    fn fits(class: Wanted, token: Token) -> bool {
        take(&[token], 0, class).is_some()
    }

    fn starts(kind: Kind, token: Token) -> bool {
        match kind {
            Kind::Plain(_) => matches!(token.kind, Kind::Plain(_)),
            Kind::Negative(_) => matches!(token.kind, Kind::Negative(_)),
            _ => kind == token.kind,
        }
    }

    fn same(a: Line, b: Line) -> bool {
        a == b
    }

    fn first() -> Line {
        Line::Expr
    }

    fn rows() -> &'static [Row<Kind, Wanted, Line>] {
        &ROWS
    }

    fn others() -> &'static [Row<Line, Wanted, Line>] {
        &OTHERS
    }

    fn ends() -> &'static [Line] {
        &ENDS
    }

    fn kinds() -> &'static [(Kind, Option<Kind>, &'static str)] {
        &KINDS
    }

    fn sample(kind: Kind) -> Token {
        let span = Span { start: 0, end: 0 };
        Token { kind, span }
    }

    fn place(token: Token) -> Span {
        token.span
    }

    fn token(tokens: &Vec<Token>, at: usize) -> Option<Token> {
        peek(tokens, at)
    }
}

/// What could stand at a place of a source text, in one line of at most 100 bytes without its end, and what stands
/// there (own choice): `wanted one of: in * + -; found ..`. The line is empty where that place is not the first token,
/// or the end, at which no expression of the grammar goes on. An error is want of memory.
pub fn source_wanted(alloc: Global, text: &[u8], at: Span) -> Result<Vec<u8>, OutOfMemory>
    ensures { IfOk result (λ line. IsWanted text.now at line.items) }
{
    match tokens(alloc, text) {
        Ok(tokens) => {
            let line = line_of::<Source>(alloc, text, at, &tokens)?;
            Ok(line)
        }
        Err(FFault::Memory) => Err(OutOfMemory),
        Err(FFault::Refused { .. }) => Ok(Vec::new(alloc)),
    }
}
