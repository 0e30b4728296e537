// The line on what could stand at a place of an assembly text.
ghost use Rattle.std.specs.Prelude.{◌≡◌, IfOk};
ghost use Rattle.t_text.specs.Kept.{tokens_of};
ghost use Rattle.t_text.specs.GrammarTable as machine;
ghost use Rattle.t_text.specs.declared.wanted.Wanted.TheVariants as want;
ghost use Rattle.talc_wanted.specs.AssemblyTable.{assembly_owes, is_for_all};
ghost use Rattle.talc_wanted.specs.AssemblyWords.{assembly_kinds};
ghost use Rattle.talc_wanted.specs.AssemblyText.{IsWanted};

use crate::assembly_table::{ENDS, Line, OTHERS, ROWS};
use crate::assembly_words::KINDS;
use crate::{Language, Row, line_of};
use idx_core::{OutOfMemory, Span};
use std::alloc::Global;
use t_terms::TFault;
use t_text::{Kind, Token, Tokens, Wanted, tokens};

// whether a number is 0 or 1
fn is_flag(kind: Kind) -> bool
    ensures { result ≡ machine.fits want.Flag kind }
{
    match kind {
        Kind::Plain(value) => value == 0 || value == 1,
        Kind::Negative(value) => value == 0,
        _ => false,
    }
}

// whether a kind stands for all that are like this one
fn is_for_all(kind: Kind, found: Kind) -> bool
    ensures { result ≡ is_for_all kind found }
{
    match kind {
        Kind::Plain(value) => value == 3 && matches!(found, Kind::Plain(_)),
        Kind::Negative(_) => matches!(found, Kind::Negative(_)),
        Kind::Register(_) => matches!(found, Kind::Register(_)),
        _ => false,
    }
}

/// The assembly language.
struct Assembly;

impl Language for Assembly {
    type Class = Wanted;

    type Line = Line;

    type Kind = Kind;

    type Token = Token;

    type Tokens = Tokens;

    ghost owes = { assembly_owes };

    ghost tells = { assembly_kinds };

    ghost tokens_of = { tokens_of };

    fn fits(class: Wanted, token: Token) -> bool {
        let kind = token.kind;
        match class {
            Wanted::Name => matches!(kind, Kind::Name),
            Wanted::Register => matches!(kind, Kind::Register(_)),
            Wanted::Number => matches!(kind, Kind::Plain(_)),
            Wanted::Flag => is_flag(kind),
            Wanted::LeftBracket => matches!(kind, Kind::LeftBracket),
            Wanted::RightBracket => matches!(kind, Kind::RightBracket),
            Wanted::LeftBrace => matches!(kind, Kind::LeftBrace),
            Wanted::RightBrace => matches!(kind, Kind::RightBrace),
            Wanted::RightAngle => matches!(kind, Kind::RightAngle),
            Wanted::Comma => matches!(kind, Kind::Comma),
            Wanted::Dot => matches!(kind, Kind::Dot),
            Wanted::Colon => matches!(kind, Kind::Colon),
            Wanted::Caret => matches!(kind, Kind::Caret),
            Wanted::Tal => matches!(kind, Kind::Tal),
            Wanted::Code => matches!(kind, Kind::Code),
            Wanted::As => matches!(kind, Kind::As),
            Wanted::Int => matches!(kind, Kind::Int),
        }
    }

    fn starts(kind: Kind, token: Token) -> bool {
        is_for_all(kind, token.kind) || token.kind == kind
    }

    fn same(a: Line, b: Line) -> bool {
        a == b
    }

    fn first() -> Line {
        Line::Program
    }

    fn rows() -> &'static [Row<Kind, Wanted, Line>] {
        &ROWS
    }

    fn others() -> &'static [Row<Line, Wanted, Line>] {
        &OTHERS
    }

    fn ends() -> &'static [Line] {
        &ENDS
    }

    fn kinds() -> &'static [(Kind, Option<Kind>, &'static str)] {
        &KINDS
    }

    fn sample(kind: Kind) -> Token {
        let span = Span { start: 0, end: 0 };
        Token { kind, span }
    }

    fn place(token: Token) -> Span {
        token.span
    }

    fn token(tokens: &Tokens, at: usize) -> Option<Token> {
        tokens.get(at)
    }
}

/// What could stand at a place of an assembly text, in one line of at most 100 bytes without its end, and what stands
/// there (own choice): `wanted one of: jmp halt [ add; found ..`. The line is empty where that place is not the first
/// token, or the end, at which no program of the grammar goes on. An error is want of memory.
pub fn tal_wanted(alloc: Global, text: &[u8], at: Span) -> Result<Vec<u8>, OutOfMemory>
    ensures { IfOk result (λ line. IsWanted text.now at line.items) }
{
    match tokens(alloc, text) {
        Ok(tokens) => {
            let line = line_of::<Assembly>(alloc, text, at, &tokens)?;
            Ok(line)
        }
        Err(TFault::Memory) => Err(OutOfMemory),
        Err(TFault::Refused { .. }) => Ok(Vec::new(alloc)),
    }
}
