// The kinds of tokens by tags and numbers.
ghost use Rattle.std.specs.Prelude.{◌≡◌, ◌≤◌, ◌^◌, pos, neg_ℤ, IfSome};
ghost use Rattle.t_text.specs.Kept.{kind_of, Fits};

use crate::Kind;
use std::marker::Model;

// The kinds of tokens, without the numbers.
#[derive(Clone, Copy)]
pub(crate) enum Tag {
    Name,
    Register,
    Plain,
    Negative,
    Tal,
    Code,
    All,
    Some,
    Pack,
    As,
    Unpack,
    Add,
    Sub,
    Mul,
    Bnz,
    Ld,
    St,
    Mov,
    Malloc,
    Jmp,
    Halt,
    Int,
    Data,
    LeftBracket,
    RightBracket,
    LeftBrace,
    RightBrace,
    LeftAngle,
    RightAngle,
    Comma,
    Dot,
    Colon,
    Caret,
}

// minus a value of at most 2 to the power of 63
fn negated(value: u64) -> i64
    requires { value ≤ 2 ^ 63 }
    ensures { result ≡ neg_ℤ (pos value) }
{
    if value <= i64::MAX as u64 {
        -(value as i64)
    } else {
        i64::MIN
    }
}

/// The kind of a tag and its number.
#[inline(always)]
pub(crate) fn kind_of(tag: Tag, number: u64) -> Kind
    requires { Fits tag number }
    ensures { result ≡ kind_of tag number }
{
    match tag {
        Tag::Name => Kind::Name,
        Tag::Register => Kind::Register(number),
        Tag::Plain => Kind::Plain(number as i64),
        Tag::Negative => Kind::Negative(negated(number)),
        Tag::Tal => Kind::Tal,
        Tag::Code => Kind::Code,
        Tag::All => Kind::All,
        Tag::Some => Kind::Some,
        Tag::Pack => Kind::Pack,
        Tag::As => Kind::As,
        Tag::Unpack => Kind::Unpack,
        Tag::Add => Kind::Add,
        Tag::Sub => Kind::Sub,
        Tag::Mul => Kind::Mul,
        Tag::Bnz => Kind::Bnz,
        Tag::Ld => Kind::Ld,
        Tag::St => Kind::St,
        Tag::Mov => Kind::Mov,
        Tag::Malloc => Kind::Malloc,
        Tag::Jmp => Kind::Jmp,
        Tag::Halt => Kind::Halt,
        Tag::Int => Kind::Int,
        Tag::Data => Kind::Data,
        Tag::LeftBracket => Kind::LeftBracket,
        Tag::RightBracket => Kind::RightBracket,
        Tag::LeftBrace => Kind::LeftBrace,
        Tag::RightBrace => Kind::RightBrace,
        Tag::LeftAngle => Kind::LeftAngle,
        Tag::RightAngle => Kind::RightAngle,
        Tag::Comma => Kind::Comma,
        Tag::Dot => Kind::Dot,
        Tag::Colon => Kind::Colon,
        Tag::Caret => Kind::Caret,
    }
}

/// A kind by its tag and its number, without the sign. Contracts see the kind.
#[derive(Drop)]
pub(crate) struct Tagged {
    tag: Tag,
    number: u64,
}

impl Model for Tagged {
    ghost use Rattle.t_text.specs.declared.token.Kind.{Kind};
    ghost use Rattle.t_text.specs.Kept.{kind_of, Fits};

    ghost Value = { Kind };

    ghost view = { λ k. kind_of k.tag k.number };

    ghost invariant = { λ k. Fits k.tag k.number };
}

impl Tagged {
    /// The kind of a tag and its number.
    #[inline(always)]
    pub(crate) fn new(tag: Tag, number: u64) -> Tagged
        requires { Fits tag number }
        ensures { result ≡ kind_of tag number }
    {
        Tagged { tag, number }
    }

    /// The kind of a tag without a number.
    #[inline(always)]
    pub(crate) fn bare(tag: Tag) -> Tagged
        ensures { result ≡ kind_of tag 0 }
    {
        Tagged { tag, number: 0 }
    }

    /// The kind itself.
    pub(crate) fn kind(&self) -> Kind
        ensures { result ≡ self.now }
    {
        kind_of(self.tag, self.number)
    }

    /// The tag with its number, where that is one of 16 bits.
    #[inline(always)]
    pub(crate) fn small(&self) -> Option<(Tag, u16)>
        ensures { IfSome result (λ p. kind_of p.0 p.1 ≡ self.now) }
    {
        if self.number <= u16::MAX as u64 {
            Some((self.tag, self.number as u16))
        } else {
            None
        }
    }
}
