// The heads of items: what each item is, and the place of its label.
ghost use Rattle.std.specs.Prelude.{◌≡◌, ◌≤◌, ◌<◌, length, true, MatchResult};
ghost use Rattle.t_text.specs.Kept.{tokens_of};
ghost use Rattle.t_shapes.specs.Raw.{raw_item, raw_items};
ghost use Rattle.t_reader.specs.Heads.{head_of, heads_of};
ghost use Rattle.t_terms.specs.declared.fault.TFault.TheVariants as fault;

use idx_core::Span;
use std::alloc::Global;
use t_shapes::{RawItem, peek, take};
use t_terms::TFault;
use t_text::{Kind, Tokens, Wanted};

/// What an item begins as: a block or a data tuple, with the place of its label.
#[derive(Clone, Copy, Debug, Drop)]
pub enum Head {
    Block(Span),
    Data(Span),
}

// the head whose label, colon and word stand from this token on
fn head_at(tokens: &Tokens, at: usize) -> Option<Head>
    requires { at ≤ length (tokens_of tokens.now) }
{
    let label = take(tokens, at, Wanted::Name)?;
    take(tokens, at + 1, Wanted::Colon)?;
    let word = peek(tokens, at + 2)?;
    match word.kind {
        Kind::Code => Some(Head::Block(label.span)),
        Kind::Data => Some(Head::Data(label.span)),
        _ => None,
    }
}

// the head that this token is one of the three of
#[inline(always)]
fn head_around(tokens: &Tokens, at: usize) -> Option<Head>
    requires { (2 ≤ at) × (at < length (tokens_of tokens.now)) }
{
    let token = peek(tokens, at)?;
    match token.kind {
        Kind::Name => head_at(tokens, at),
        Kind::Colon => head_at(tokens, at - 1),
        Kind::Code | Kind::Data => head_at(tokens, at - 2),
        _ => None,
    }
}

/// The heads that stand among tokens from the third on. A head is three tokens, so a look at each third one finds them
/// all. Where the tokens are a program, they are those of its items, but whoever reads the items has to compare.
pub fn heads_in(alloc: Global, tokens: &Tokens) -> Result<Vec<Head>, TFault> {
    let mut heads = Vec::new(alloc);
    let mut at = 2;
    while at < tokens.len() {
        if let Some(head) = head_around(tokens, at) {
            heads.push(head)?;
        }
        at += 3;
    }
    Ok(heads)
}

/// The head of an item.
pub fn head_of(item: &RawItem) -> Head
    ensures { result ≡ head_of (raw_item item.now) }
{
    match item {
        RawItem::Block(block) => Head::Block(block.name),
        RawItem::Data(tuple) => Head::Data(tuple.name),
    }
}

/// The heads of items.
pub fn heads_of(alloc: Global, items: &[RawItem]) -> Result<Vec<Head>, TFault>
    ensures { MatchResult result (λ hs. hs.items ≡ heads_of (raw_items items.now)) (λ e. e ≡ fault.Memory) }
{
    let mut heads = Vec::with_capacity(alloc, items.len())?;
    for item in items {
        heads.push(head_of(item))?;
    }
    Ok(heads)
}

fn same_place(one: Span, other: Span) -> bool
    ensures { result ≡ true → one ≡ other }
{
    one.start == other.start && one.end == other.end
}

/// Whether two heads are the same.
pub fn same_head(one: Head, other: Head) -> bool
    ensures { result ≡ true → one ≡ other }
{
    match (one, other) {
        (Head::Block(name), Head::Block(label)) => same_place(name, label),
        (Head::Data(name), Head::Data(label)) => same_place(name, label),
        _ => false,
    }
}
