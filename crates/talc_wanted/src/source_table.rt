// The table of the source's grammar: what its lines owe after a first token of a kind.

use crate::{Row, Sym};
use f_grammar::Wanted;
use f_lexer::Kind;

/// The lines of the grammar, what stands in brackets of its forms, and what may follow on an operand.
#[derive(Clone, Copy, PartialEq, Eq)]
pub(crate) enum Line {
    Expr,
    Part,
    Param,
    Branches,
    Fields,
    Hidden,
    Names,
    MoreParts,
    MoreFactors,
    MoreSums,
    MoreAssign,
    MoreFields,
    Type,
    Unit,
    Types,
    MoreArrow,
    MoreTypes,
}

type Owed = Sym<Wanted, Line>;

const NAME: Owed = Sym::Token(Wanted::Name);

const NUMBER: Owed = Sym::Token(Wanted::Number);

const CLOSE: Owed = Sym::Token(Wanted::RightParen);

const CLOSE_ANGLE: Owed = Sym::Token(Wanted::RightAngle);

const CLOSE_BRACKET: Owed = Sym::Token(Wanted::RightBracket);

const COMMA: Owed = Sym::Token(Wanted::Comma);

const DOT: Owed = Sym::Token(Wanted::Dot);

const COLON: Owed = Sym::Token(Wanted::Colon);

const EQUALS: Owed = Sym::Token(Wanted::Equals);

const IN: Owed = Sym::Token(Wanted::In);

const AS: Owed = Sym::Token(Wanted::As);

const EXPR: Owed = Sym::Line(Line::Expr);

const PART: Owed = Sym::Line(Line::Part);

const PARAM: Owed = Sym::Line(Line::Param);

const BRANCHES: Owed = Sym::Line(Line::Branches);

const FIELDS: Owed = Sym::Line(Line::Fields);

const HIDDEN: Owed = Sym::Line(Line::Hidden);

const NAMES: Owed = Sym::Line(Line::Names);

const MORE_PARTS: Owed = Sym::Line(Line::MoreParts);

const MORE_FACTORS: Owed = Sym::Line(Line::MoreFactors);

const MORE_SUMS: Owed = Sym::Line(Line::MoreSums);

const MORE_ASSIGN: Owed = Sym::Line(Line::MoreAssign);

const MORE_FIELDS: Owed = Sym::Line(Line::MoreFields);

const TYPE: Owed = Sym::Line(Line::Type);

const UNIT: Owed = Sym::Line(Line::Unit);

const TYPES: Owed = Sym::Line(Line::Types);

const MORE_ARROW: Owed = Sym::Line(Line::MoreArrow);

const MORE_TYPES: Owed = Sym::Line(Line::MoreTypes);

// Of lines and first tokens, what is owed after these, the next last. A number stands for all of its sign.
pub(crate) static ROWS: [Row<Kind, Wanted, Line>; 35] = [
    (
        Line::Expr,
        Kind::Fix,
        &[EXPR, DOT, TYPE, COLON, PARAM, NAME],
    ),
    (Line::Expr, Kind::Gen, &[EXPR, DOT, NAME]),
    (Line::Expr, Kind::Let, &[EXPR, IN, EXPR, EQUALS, NAME]),
    (Line::Expr, Kind::Pack, &[TYPE, AS, HIDDEN]),
    (Line::Expr, Kind::Open, &[EXPR, IN, EXPR, EQUALS, NAMES]),
    (Line::Part, Kind::Name, &[]),
    (Line::Part, Kind::Plain(1), &[]),
    (Line::Part, Kind::Negative(-1), &[]),
    (Line::Part, Kind::LeftParen, &[CLOSE, EXPR]),
    (Line::Part, Kind::LeftAngle, &[FIELDS]),
    (Line::Part, Kind::Hash, &[PART, NUMBER]),
    (Line::Part, Kind::If0, &[BRANCHES]),
    (Line::Part, Kind::Ref, &[PART]),
    (Line::Part, Kind::Bang, &[PART]),
    (Line::Param, Kind::LeftParen, &[CLOSE, TYPE, COLON, NAME]),
    (
        Line::Branches,
        Kind::LeftParen,
        &[CLOSE, EXPR, COMMA, EXPR, COMMA, EXPR],
    ),
    (Line::Fields, Kind::RightAngle, &[]),
    (
        Line::Hidden,
        Kind::LeftBracket,
        &[CLOSE_BRACKET, EXPR, COMMA, TYPE],
    ),
    (
        Line::Names,
        Kind::LeftBracket,
        &[CLOSE_BRACKET, NAME, COMMA, NAME],
    ),
    (
        Line::MoreParts,
        Kind::LeftBracket,
        &[MORE_PARTS, CLOSE_BRACKET, TYPE],
    ),
    (
        Line::MoreFactors,
        Kind::Star,
        &[MORE_FACTORS, MORE_PARTS, PART],
    ),
    (
        Line::MoreSums,
        Kind::Plus,
        &[MORE_SUMS, MORE_FACTORS, MORE_PARTS, PART],
    ),
    (
        Line::MoreSums,
        Kind::Minus,
        &[MORE_SUMS, MORE_FACTORS, MORE_PARTS, PART],
    ),
    (
        Line::MoreAssign,
        Kind::Assign,
        &[MORE_SUMS, MORE_FACTORS, MORE_PARTS, PART],
    ),
    (Line::MoreFields, Kind::Comma, &[MORE_FIELDS, EXPR]),
    (Line::Type, Kind::All, &[TYPE, DOT, NAME]),
    (Line::Type, Kind::Some, &[TYPE, DOT, NAME]),
    (Line::Unit, Kind::Int, &[]),
    (Line::Unit, Kind::Name, &[]),
    (Line::Unit, Kind::LeftAngle, &[TYPES]),
    (Line::Unit, Kind::LeftParen, &[CLOSE, TYPE]),
    (Line::Unit, Kind::Ref, &[UNIT]),
    (Line::Types, Kind::RightAngle, &[]),
    (Line::MoreArrow, Kind::Arrow, &[TYPE]),
    (Line::MoreTypes, Kind::Comma, &[MORE_TYPES, TYPE]),
];

// The lines that go on, after their own rows, as another does, and what they owe after it.
pub(crate) static OTHERS: [Row<Line, Wanted, Line>; 5] = [
    (Line::Fields, Line::Expr, &[CLOSE_ANGLE, MORE_FIELDS]),
    (Line::Types, Line::Type, &[CLOSE_ANGLE, MORE_TYPES]),
    (
        Line::Expr,
        Line::Part,
        &[MORE_ASSIGN, MORE_SUMS, MORE_FACTORS, MORE_PARTS],
    ),
    (Line::MoreParts, Line::Part, &[MORE_PARTS]),
    (Line::Type, Line::Unit, &[MORE_ARROW]),
];

// The lines that may be of no tokens.
pub(crate) static ENDS: [Line; 7] = [
    Line::MoreParts,
    Line::MoreFactors,
    Line::MoreSums,
    Line::MoreAssign,
    Line::MoreFields,
    Line::MoreArrow,
    Line::MoreTypes,
];
