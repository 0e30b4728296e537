// The classes of tokens that a form may owe.

/// The classes of tokens that a form of an assembly text may owe (own choice). `Number` is a plain number, and `Flag`
/// a number whose value is 0 or 1.
#[derive(Clone, Copy, Debug, PartialEq, Eq)]
pub enum Wanted {
    Name,
    Register,
    Number,
    Flag,
    LeftBracket,
    RightBracket,
    LeftBrace,
    RightBrace,
    RightAngle,
    Comma,
    Dot,
    Colon,
    Caret,
    Tal,
    Code,
    As,
    Int,
}
