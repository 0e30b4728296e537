// The reading of items: blocks and data tuples.
ghost use Rattle.std.specs.Prelude.{◌≡◌, ◌≤◌, ◌||◌, not, length, slice_get, is_some};
ghost use Rattle.text_core.specs.Going.{next_of};
ghost use Rattle.t_text.specs.GrammarTable.{table};
ghost use Rattle.t_text.specs.declared.wanted.Wanted.TheVariants as want;
ghost use Rattle.t_shapes.specs.Raw.{raw_item, is_block};
ghost use Rattle.t_shapes.specs.Reads.{IsItem, AreItems};
ghost use Rattle.t_text.specs.Kept.{tokens_of};

use crate::blocks::code;
use crate::data::tuple;
use crate::raw::{RawData, RawItem};
use crate::{Stopped, expect, peek, take};
use std::alloc::Global;
use t_text::{Kind, Tokens, Wanted};

/// An item that was read, and the number of the token after it.
#[derive(Drop)]
pub struct FoundItem {
    pub item: RawItem,
    pub next: usize,
}

/// Items that were read, and the number of the token after them.
#[derive(Drop)]
pub struct FoundItems {
    pub items: Vec<RawItem>,
    pub next: usize,
}

/// Whether a block stands among items and one more.
pub fn with_block(has_block: bool, item: &RawItem) -> bool
    ensures { result ≡ (has_block || is_block (raw_item item.now)) }
{
    has_block || matches!(item, RawItem::Block(_))
}

/// Item ::= Block | label : data < > | label : data < W : T , .. , W : T >
pub fn item(alloc: Global, tokens: &Tokens, at: usize) -> Result<FoundItem, Stopped>
    requires { at ≤ length (tokens_of tokens.now) }
    ensures { IsItem (tokens_of tokens.now) at result }
{
    let label = expect(tokens, at, Wanted::Name)?;
    expect(tokens, at + 1, Wanted::Colon)?;
    let word = match peek(tokens, at + 2) {
        Some(word) => word,
        None => return Err(Stopped::Unexpected(at + 2)),
    };
    match word.kind {
        Kind::Code => {
            let found = code(alloc, tokens, at + 3, label.span)?;
            Ok(FoundItem {
                item: RawItem::Block(found.block),
                next: found.next,
            })
        }
        Kind::Data => {
            let found = tuple(alloc, tokens, at + 3)?;
            Ok(FoundItem {
                item: RawItem::Data(RawData {
                    name: label.span,
                    fields: found.fields,
                }),
                next: found.next,
            })
        }
        _ => Err(Stopped::Unexpected(at + 2)),
    }
}

/// Whether an item is owed at a place, or one may follow there.
pub fn wants_item(tokens: &Tokens, at: usize, has_block: bool) -> bool
    ensures { result ≡ (not has_block || is_some (next_of table want.Name (slice_get (tokens_of tokens.now) at))) }
{
    !has_block || take(tokens, at, Wanted::Name).is_some()
}

/// Item .. Item, of which one at least is a block
pub fn items(alloc: Global, tokens: &Tokens, at: usize) -> Result<FoundItems, Stopped>
    requires { at ≤ length (tokens_of tokens.now) }
    ensures { AreItems (tokens_of tokens.now) at result }
{
    let mut items = Vec::new(alloc);
    let mut next = at;
    let mut has_block = false;
    while wants_item(tokens, next, has_block) {
        let found = item(alloc, tokens, next)?;
        next = found.next;
        has_block = with_block(has_block, &found.item);
        items.push(found.item)?;
    }
    Ok(FoundItems { items, next })
}
