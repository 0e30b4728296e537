// The kinds of tokens.

/// The kinds of tokens of the source (own choice): names, numbers, and one kind for each reserved word and sign.
/// A number holds the value meant, so that of `~7` is minus 7.
#[derive(Clone, Copy, Debug, PartialEq, Eq, Drop)]
pub enum Kind {
    Name,
    Plain(i64),
    Negative(i64),
    Fix,
    Gen,
    All,
    Int,
    If0,
    Let,
    In,
    Pack,
    Open,
    As,
    Some,
    Ref,
    /// `(`
    LeftParen,
    /// `)`
    RightParen,
    /// `<`
    LeftAngle,
    /// `>`
    RightAngle,
    /// `[`
    LeftBracket,
    /// `]`
    RightBracket,
    Comma,
    Dot,
    Colon,
    Plus,
    Minus,
    Star,
    Hash,
    Equals,
    Bang,
    /// `->`
    Arrow,
    /// `:=`
    Assign,
}
