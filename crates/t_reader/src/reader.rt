// From the bytes of a text to its program.
ghost use Rattle.std.specs.Prelude.{◌≡◌, ◌≢◌, List, [], ◌∷◌, ◌++◌, MatchResult, IsErrAnd, IfOk};
ghost use Rattle.idx_core.specs.declared.span.Span as place;
ghost use Rattle.t_terms.specs.declared.fault.TCode as codes;
ghost use Rattle.t_terms.specs.declared.fault.TFault.TheVariants as fault;
ghost use Rattle.t_terms.specs.Spanned.{SProg};
ghost use Rattle.t_terms.specs.Read.{spanned, spanned_data, spanned_parts};
ghost use Rattle.t_terms.specs.ReadProgram.{spanned_program};
ghost use Rattle.t_text.specs.Text.{ReadsAs, FirstFault, IsFirstFault};
ghost use Rattle.t_text.specs.Names.{program_of, block_of, data_of};
ghost use Rattle.t_text.specs.NameFaults.{program_faults};
ghost use Rattle.t_text.specs.Kept.{tokens_of};
ghost use Rattle.t_shapes.specs.Raw.{raw_block, raw_data, raw_item, raw_items};
ghost use Rattle.t_shapes.specs.Reads.{AreProgram, HasRead};
ghost use Rattle.t_text.specs.Raw as tree;
ghost use Rattle.t_text.specs.Tokens.{IsCut};
ghost use Rattle.t_reader.specs.Heads.{head_labels, AreParts};
ghost use Rattle.t_reader.specs.Labelled.{target_base, same_base, NameTheSame};
ghost use Rattle.t_reader.specs.Resolve.{StopsAt, place_at, stands_before};
ghost use Rattle.t_reader.specs.Resolve.{block_numbered_faults, data_numbered_faults};

use crate::faults::refused;
use crate::heads::{Head, head_of, heads_in, same_head};
use crate::labels::{Labels, labels_from, labels_in, salt_of};
use crate::resolve::{block_in, data_in};
use crate::scope::spelling;
use crate::target::Target;
use idx_core::{Salt, Span};
use std::alloc::Global;
use t_shapes::{
    RawBlock, RawData, RawItem, SoFar, Stopped, Turn, begin, is_all, next_item, peek, program,
};
use t_terms::{Block, Data, TCode, TFault, TProgram};
use t_text::{Tokens, at_most_one_fault, at_most_one_program, no_fault_where_read, tokens};

// the blocks and the data of a text, each in the order of the text
#[derive(Drop)]
struct Parts {
    blocks: Vec<Block>,
    heap: Vec<Data>,
}

// the place of a token, or the end of the text
fn place(text: &[u8], tokens: &Tokens, at: usize) -> Span
    ensures { result ≡ place_at text.now (tokens_of tokens.now) at }
{
    match peek(tokens, at) {
        Some(token) => token.span,
        None => Span {
            start: text.len() as u64,
            end: text.len() as u64,
        },
    }
}

// the items of a text that is these tokens, before names are resolved
fn shape(alloc: Global, text: &[u8], tokens: &Tokens) -> Result<Vec<RawItem>, TFault>
    requires { IsCut text.now (tokens_of tokens.now) }
    ensures { MatchResult result (λ xs. AreProgram (tokens_of tokens.now) (raw_items xs.items))
        (λ f. IsFirstFault text.now f) }
{
    match program(alloc, tokens) {
        Ok(items) => Ok(items),
        Err(Stopped::Memory) => Err(TFault::Memory),
        Err(Stopped::Unexpected(at)) => Err(refused(TCode::T03, place(text, tokens, at))),
        Err(Stopped::TooDeep(at)) => Err(refused(TCode::M1, place(text, tokens, at))),
    }
}

// whether two labels name the same
fn same_target(one: Target, other: Target) -> bool
    ensures { result ≡ same_base (target_base one) (target_base other) }
{
    match (one, other) {
        (Target::Block(i), Target::Block(k)) => i == k,
        (Target::Data(i), Target::Data(k)) => i == k,
        _ => false,
    }
}

// whether a label is that of an item before the one that is this
fn stood_before(labels: &Labels<'_>, name: &[u8], target: Target) -> bool
    ensures { result ≡ stands_before name.now labels.now (target_base target) }
{
    match labels.find(name) {
        Some(first) => !same_target(first, target),
        None => true,
    }
}

// the block of a raw one with this number, whose label may not stand before
fn numbered_block(
    alloc: Global,
    text: &[u8],
    labels: &Labels<'_>,
    number: usize,
    block: &RawBlock,
) -> Result<Block, TFault>
    ensures { MatchResult result
        (λ b. (block_numbered_faults text.now labels.now number (raw_block block.now) ≡ [])
        × (spanned b ≡ block_of text.now labels.now (raw_block block.now)))
        (λ e. StopsAt (block_numbered_faults text.now labels.now number (raw_block block.now)) e) }
{
    let target = Target::Block(number as u64);
    if stood_before(labels, spelling(text, block.name), target) {
        return Err(refused(TCode::T04, block.name));
    }
    block_in(alloc, text, labels, block)
}

// the same of a raw block that is dropped after it
fn taken_block(
    alloc: Global,
    text: &[u8],
    labels: &Labels<'_>,
    number: usize,
    block: RawBlock,
) -> Result<Block, TFault>
    ensures { MatchResult result
        (λ b. (block_numbered_faults text.now labels.now number (raw_block block) ≡ [])
        × (spanned b ≡ block_of text.now labels.now (raw_block block)))
        (λ e. StopsAt (block_numbered_faults text.now labels.now number (raw_block block)) e) }
{
    numbered_block(alloc, text, labels, number, &block)
}

// the data tuple of a raw one with this number, whose label may not stand before
fn numbered_data(
    alloc: Global,
    text: &[u8],
    labels: &Labels<'_>,
    number: usize,
    tuple: &RawData,
) -> Result<Data, TFault>
    ensures { MatchResult result
        (λ x. (data_numbered_faults text.now labels.now number (raw_data tuple.now) ≡ [])
        × (spanned_data x ≡ data_of text.now labels.now (raw_data tuple.now)))
        (λ e. StopsAt (data_numbered_faults text.now labels.now number (raw_data tuple.now)) e) }
{
    let target = Target::Data(number as u64);
    if stood_before(labels, spelling(text, tuple.name), target) {
        return Err(refused(TCode::T04, tuple.name));
    }
    data_in(alloc, text, labels, tuple)
}

// the same of a raw data tuple that is dropped after it
fn taken_data(
    alloc: Global,
    text: &[u8],
    labels: &Labels<'_>,
    number: usize,
    tuple: RawData,
) -> Result<Data, TFault>
    ensures { MatchResult result
        (λ x. (data_numbered_faults text.now labels.now number (raw_data tuple) ≡ [])
        × (spanned_data x ≡ data_of text.now labels.now (raw_data tuple)))
        (λ e. StopsAt (data_numbered_faults text.now labels.now number (raw_data tuple)) e) }
{
    numbered_data(alloc, text, labels, number, &tuple)
}

// The blocks and the data of a text with their names resolved. Each raw item is dropped as soon as its own is made, so
// that the two trees are never both whole in memory.
fn parts_in(alloc: Global, text: &[u8], raw: Vec<RawItem>, salt: Salt) -> Result<Parts, TFault>
    ensures { MatchResult result
        (λ p. (program_faults text.now (raw_items raw.items) ≡ [])
        × (spanned_parts p.blocks.items p.heap.items ≡ program_of text.now (raw_items raw.items)))
        (λ e. StopsAt (program_faults text.now (raw_items raw.items)) e) }
{
    let labels = labels_in(alloc, text, &raw, salt)?;
    let mut blocks = Vec::new(alloc);
    let mut heap = Vec::new(alloc);
    for item in raw {
        match item {
            RawItem::Block(block) => {
                let made = taken_block(alloc, text, &labels, blocks.len(), block)?;
                blocks.push(made)?;
            }
            RawItem::Data(tuple) => {
                let number = heap.len();
                let made = taken_data(alloc, text, &labels, number, tuple)?;
                heap.push(made)?;
            }
        }
    }
    Ok(Parts { blocks, heap })
}

// a fault, where it does not matter which
fn some_fault() -> TFault {
    refused(TCode::T03, Span { start: 0, end: 0 })
}

// the next item, or some fault
fn turn(alloc: Global, tokens: &Tokens, so_far: SoFar) -> Result<Turn, TFault>
    ensures { IfOk result (λ t. (xs : List tree.RawItem) → HasRead (tokens_of tokens.now) so_far xs →
        HasRead (tokens_of tokens.now) t.so_far (xs ++ raw_item t.item ∷ [])) }
{
    match next_item(alloc, tokens, so_far) {
        Ok(found) => Ok(found),
        Err(Stopped::Memory) => Err(TFault::Memory),
        Err(_) => Err(some_fault()),
    }
}

// The blocks and the data of a text, where its items have these heads, or some fault. Each item is read, made and
// dropped before the next is read, so that there is one raw tree at a time.
fn parts_by_heads(
    alloc: Global,
    text: &[u8],
    tokens: &Tokens,
    labels: &Labels<'_>,
    heads: &[Head],
) -> Result<Parts, TFault>
    ensures { IfOk result (λ p. NameTheSame labels.now (head_labels text.now heads.now) →
        AreParts text.now (tokens_of tokens.now) p.blocks.items p.heap.items) }
{
    let mut so_far = match begin(tokens) {
        Some(so_far) => so_far,
        None => return Err(some_fault()),
    };
    let mut blocks = Vec::new(alloc);
    let mut heap = Vec::new(alloc);
    for head in heads {
        let Turn { item, so_far: next } = turn(alloc, tokens, so_far)?;
        if !same_head(*head, head_of(&item)) {
            return Err(some_fault());
        }
        so_far = next;
        match item {
            RawItem::Block(block) => {
                let made = taken_block(alloc, text, labels, blocks.len(), block)?;
                blocks.push(made)?;
            }
            RawItem::Data(tuple) => {
                let number = heap.len();
                let made = taken_data(alloc, text, labels, number, tuple)?;
                heap.push(made)?;
            }
        }
    }
    if !is_all(tokens, so_far) {
        return Err(some_fault());
    }
    Ok(Parts { blocks, heap })
}

// The same by the heads that stand among the tokens. A text without fault has no others.
fn parts_in_turn(alloc: Global, text: &[u8], tokens: &Tokens, salt: Salt) -> Result<Parts, TFault>
    ensures { IfOk result (λ p. AreParts text.now (tokens_of tokens.now) p.blocks.items p.heap.items) }
{
    let heads = heads_in(alloc, tokens)?;
    let labels = labels_from(alloc, text, &heads, salt)?;
    let parts = parts_by_heads(alloc, text, tokens, &labels, &heads)?;
    Ok(parts)
}

// the blocks and the data of a text, of which all raw trees are read first, or its first fault
fn parts_at_once(alloc: Global, text: &[u8], tokens: &Tokens, salt: Salt) -> Result<Parts, TFault>
    requires { IsCut text.now (tokens_of tokens.now) }
    ensures { MatchResult result
        (λ p. AreParts text.now (tokens_of tokens.now) p.blocks.items p.heap.items)
        (λ f. IsFirstFault text.now f) }
{
    let raw = shape(alloc, text, tokens)?;
    let parts = parts_in(alloc, text, raw, salt)?;
    Ok(parts)
}

// The blocks and the data of a text, or its first fault. A fault of the grammar comes before any of names, so a text
// with a fault is read once more.
fn parts_of(alloc: Global, text: &[u8], tokens: &Tokens, salt: Salt) -> Result<Parts, TFault>
    requires { IsCut text.now (tokens_of tokens.now) }
    ensures { MatchResult result
        (λ p. AreParts text.now (tokens_of tokens.now) p.blocks.items p.heap.items)
        (λ f. IsFirstFault text.now f) }
{
    match parts_in_turn(alloc, text, tokens, salt) {
        Ok(parts) => Ok(parts),
        Err(TFault::Memory) => Err(TFault::Memory),
        Err(_) => parts_at_once(alloc, text, tokens, salt),
    }
}

// the program or the first fault of a text
fn reading(alloc: Global, text: &[u8], salt: Salt) -> Result<TProgram, TFault>
    ensures { MatchResult result (λ p. ReadsAs text.now (spanned_program p)) (λ f. IsFirstFault text.now f) }
{
    let tokens = tokens(alloc, text)?;
    let parts = parts_of(alloc, text, &tokens, salt)?;
    Ok(TProgram::new(parts.blocks, parts.heap))
}

/// The program that an assembly text stands for. Refused by T01 to T07 and M1: by the first fault of the tokens, else
/// of the grammar or of the limit on open constructs, in the order of the tokens, else of names and registers, in the
/// order of the text (own choice).
pub fn read(alloc: Global, text: &[u8]) -> Result<TProgram, TFault>
    ensures right { MatchResult result (λ p. ReadsAs text.now (spanned_program p)) (λ f. IsFirstFault text.now f) }
    ensures program { (P : SProg) → ReadsAs text.now P →
        MatchResult result (λ p. spanned_program p ≡ P) (λ f. f ≡ fault.Memory) }
    ensures refused { (code : codes.TCode) (span : place.Span) → FirstFault text.now code span →
        IsErrAnd result (λ f. f ≢ fault.Memory → f ≡ fault.Refused code span) }
{
    read_salted(alloc, text, salt_of(text))
}

/// The same, where the caller has what `salt_of` gives for the text. It makes no difference to the answer.
pub fn read_salted(alloc: Global, text: &[u8], salt: Salt) -> Result<TProgram, TFault>
    ensures right { MatchResult result (λ p. ReadsAs text.now (spanned_program p)) (λ f. IsFirstFault text.now f) }
    ensures program { (P : SProg) → ReadsAs text.now P →
        MatchResult result (λ p. spanned_program p ≡ P) (λ f. f ≡ fault.Memory) }
    ensures refused { (code : codes.TCode) (span : place.Span) → FirstFault text.now code span →
        IsErrAnd result (λ f. f ≢ fault.Memory → f ≡ fault.Refused code span) }
{
    at_most_one_program();
    at_most_one_fault();
    no_fault_where_read();
    reading(alloc, text, salt)
}
