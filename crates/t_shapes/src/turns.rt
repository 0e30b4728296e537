// The reading of a program an item at a time.
ghost use Rattle.std.specs.Prelude.{◌≡◌, List, [], ◌∷◌, ◌++◌, Bool, true, IfSome, IfOk};
ghost use Rattle.t_text.specs.Kept.{tokens_of};
ghost use Rattle.t_text.specs.Raw as tree;
ghost use Rattle.t_shapes.specs.Raw.{raw_item};
ghost use Rattle.t_shapes.specs.Reads.{HasReadAs, HasRead, AreProgram};
ghost use Rattle.t_shapes.specs.declared.whole.Version.TheVariants.{Blocks, Items};

use crate::blocks::block;
use crate::items::{item, wants_item, with_block};
use crate::raw::RawItem;
use crate::whole::{Version, version_of};
use crate::{Stopped, peek, take};
use std::alloc::Global;
use t_text::{Tokens, Wanted};

/// How far a program is read: what its header heads, whether a block was read, and the number of the next token.
#[derive(Clone, Copy)]
pub struct SoFar {
    version: Version,
    has_block: bool,
    next: usize,
}

/// An item that was read, and how far the program is read with it.
#[derive(Drop)]
pub struct Turn {
    pub item: RawItem,
    pub so_far: SoFar,
}

/// The reading of a program up to its first item, or none where it has no header.
pub fn begin(tokens: &Tokens) -> Option<SoFar>
    ensures { IfSome result (λ s. HasRead (tokens_of tokens.now) s []) }
{
    take(tokens, 0, Wanted::Tal)?;
    let number = peek(tokens, 1)?;
    let version = version_of(number.kind)?;
    Some(SoFar {
        version,
        has_block: false,
        next: 2,
    })
}

// the next block of a program that has blocks alone
fn next_block(alloc: Global, tokens: &Tokens, next: usize) -> Result<Turn, Stopped>
    ensures { IfOk result (λ t. (b : Bool) (xs : List tree.RawItem) →
        HasReadAs Blocks (tokens_of tokens.now) b next xs →
        HasRead (tokens_of tokens.now) t.so_far (xs ++ raw_item t.item ∷ [])) }
{
    if let None = take(tokens, next, Wanted::Name) {
        return Err(Stopped::Unexpected(next));
    }
    let found = block(alloc, tokens, next)?;
    Ok(Turn {
        item: RawItem::Block(found.block),
        so_far: SoFar {
            version: Version::Blocks,
            has_block: true,
            next: found.next,
        },
    })
}

// the next item of a program that has data, too
fn next_among(alloc: Global, tokens: &Tokens, next: usize, had_block: bool) -> Result<Turn, Stopped>
    ensures { IfOk result (λ t. (xs : List tree.RawItem) → HasReadAs Items (tokens_of tokens.now) had_block next xs →
        HasRead (tokens_of tokens.now) t.so_far (xs ++ raw_item t.item ∷ [])) }
{
    if next > tokens.len() {
        return Err(Stopped::Unexpected(next));
    }
    if !wants_item(tokens, next, had_block) {
        return Err(Stopped::Unexpected(next));
    }
    let found = item(alloc, tokens, next)?;
    let has_block = with_block(had_block, &found.item);
    Ok(Turn {
        item: found.item,
        so_far: SoFar {
            version: Version::Items,
            has_block,
            next: found.next,
        },
    })
}

/// The next item of a program that is read so far.
pub fn next_item(alloc: Global, tokens: &Tokens, so_far: SoFar) -> Result<Turn, Stopped>
    ensures { IfOk result (λ t. (xs : List tree.RawItem) → HasRead (tokens_of tokens.now) so_far xs →
        HasRead (tokens_of tokens.now) t.so_far (xs ++ raw_item t.item ∷ [])) }
{
    match so_far.version {
        Version::Blocks => next_block(alloc, tokens, so_far.next),
        Version::Items => next_among(alloc, tokens, so_far.next, so_far.has_block),
    }
}

/// Whether what is read so far is a whole program, and all the tokens.
pub fn is_all(tokens: &Tokens, so_far: SoFar) -> bool
    ensures { result ≡ true → (xs : List tree.RawItem) → HasRead (tokens_of tokens.now) so_far xs →
        AreProgram (tokens_of tokens.now) xs }
{
    so_far.has_block && so_far.next >= tokens.len()
}
