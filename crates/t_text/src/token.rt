// The tokens of an assembly text.

use idx_core::Span;

/// The kinds of tokens of an assembly text (own choice): names, register tokens, numbers, and one kind for each
/// reserved word and sign. A number holds the value meant, so that of `~7` is minus 7. A register token is `r` with
/// digits, whose value is its number.
#[derive(Clone, Copy, Debug, PartialEq, Eq, Drop)]
pub enum Kind {
    Name,
    Register(u64),
    Plain(i64),
    Negative(i64),
    Tal,
    Code,
    All,
    Some,
    Pack,
    As,
    Unpack,
    Add,
    Sub,
    Mul,
    Bnz,
    Ld,
    St,
    Mov,
    Malloc,
    Jmp,
    Halt,
    Int,
    /// `data`, which stands in texts of the second version of the language.
    Data,
    /// `[`
    LeftBracket,
    /// `]`
    RightBracket,
    /// `{`
    LeftBrace,
    /// `}`
    RightBrace,
    /// `<`
    LeftAngle,
    /// `>`
    RightAngle,
    Comma,
    Dot,
    Colon,
    /// `^`
    Caret,
}

/// A token of a text: its kind, and the bytes that it takes.
#[derive(Clone, Copy, Debug, PartialEq, Eq, Drop)]
pub struct Token {
    pub kind: Kind,
    pub span: Span,
}
