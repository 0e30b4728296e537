// A language: its grammar as a table, and the kinds of its tokens.
ghost use Rattle.std.specs.Prelude.{◌≡◌, List, slice_get};
ghost use Rattle.talc_wanted.specs.Owing.{Owes};
ghost use Rattle.talc_wanted.specs.Wanted.{Kinds, lent};

use idx_core::Span;

/// What may be owed: a token of a class, or a line of the grammar (own choice).
#[derive(Clone, Copy)]
pub enum Sym<C, L> {
    Token(C),
    Line(L),
}

/// Of a line and a kind of tokens, or another line: what is owed, the next last.
pub type Row<A, C, L> = (L, A, &'static [Sym<C, L>]);

/// A language. Its grammar is a table with the values aside that it makes; what its rows owe has its next symbol last.
pub trait Language {
    type Class: Copy + 'static;

    type Line: Copy + 'static;

    type Kind: Copy + 'static;

    type Token: Copy;

    type Tokens;

    ghost owes: { Owes Self.Class Self.Line Self.Kind Self.Token };

    ghost tells: { Kinds Self.Kind Self.Token };

    ghost tokens_of: { Self.Tokens → List Self.Token };

    /// Whether a token is of this class.
    fn fits(class: Self::Class, token: Self::Token) -> bool
        ensures { result ≡ owes.fits class token };

    /// Whether the rows for this kind are for a token.
    fn starts(kind: Self::Kind, token: Self::Token) -> bool
        ensures { result ≡ owes.starts kind token };

    /// Whether two lines are one.
    fn same(a: Self::Line, b: Self::Line) -> bool
        ensures { result ≡ owes.same a b };

    /// The line of a whole text.
    fn first() -> Self::Line
        ensures { result ≡ owes.first };

    /// What a line owes after a token of a kind.
    fn rows() -> &'static [Row<Self::Kind, Self::Class, Self::Line>]
        ensures { lent result.now ≡ owes.rows };

    /// The lines that go on, after their own rows, as another does, and what they owe after it. The row of that other
    /// line, if any, stands behind it.
    fn others() -> &'static [Row<Self::Line, Self::Class, Self::Line>]
        ensures { lent result.now ≡ owes.others };

    /// The lines that may be of no tokens.
    fn ends() -> &'static [Self::Line]
        ensures { result.now ≡ owes.ends };

    /// The kinds of tokens, most specific first; for each a wider kind, if any, that stands for it where that can
    /// stand, too, and the words for it.
    fn kinds() -> &'static [(Self::Kind, Option<Self::Kind>, &'static str)]
        ensures { lent result.now ≡ tells.kinds };

    /// A token of a kind.
    fn sample(kind: Self::Kind) -> Self::Token
        ensures { result ≡ tells.sample kind };

    /// The place of a token.
    fn place(token: Self::Token) -> Span
        ensures { result ≡ tells.place token };

    /// The token at a place among these, or none at the end.
    fn token(tokens: &Self::Tokens, at: usize) -> Option<Self::Token>
        ensures { result ≡ slice_get (tokens_of tokens.now) at };
}
