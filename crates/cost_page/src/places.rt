// The places of a program, each with how often it was executed.
ghost use Rattle.std.specs.Prelude.{◌≡◌, ◌++◌, ◌+◌, length, slice_index, OnOk, IfOk};
ghost use Rattle.t_terms.specs.Read.{instr as instr_tree, end_of, spanned, spanned_blocks};
ghost use Rattle.cost_page.specs.Places.{kind_of, fields_of, end_kind, number, block_places, places};

use idx_core::{Op, OutOfMemory, Span};
use std::alloc::Global;
use t_terms::{Block, End, Instr};

/// What stands at a place: an instruction of this kind, or the end of a block.
#[derive(Clone, Copy, Drop)]
pub enum Kind {
    /// `add`.
    Add,
    /// `sub`.
    Sub,
    /// `mul`.
    Mul,
    /// `bnz`.
    Bnz,
    /// `ld`.
    Ld,
    /// `malloc`.
    Malloc,
    /// `mov`.
    Mov,
    /// `st`.
    St,
    /// `unpack`.
    Unpack,
    /// `jmp`.
    Jmp,
    /// `halt`.
    Halt,
}

/// A place of a program, with what is counted of it.
#[derive(Clone, Copy, Drop)]
pub struct Place {
    /// Where the label of its block stands in the text.
    pub label: Span,
    /// Which of the block's places it is, from 0.
    pub index: u64,
    /// What stands there.
    pub kind: Kind,
    /// How many fields the tuple has that is made there.
    pub fields: u64,
    /// Where it begins in the text.
    pub start: u64,
    /// How often it was executed.
    pub count: u64,
}

fn kind_of(i: &Instr) -> Kind
    ensures { result ≡ kind_of (instr_tree i.now) }
{
    match i {
        Instr::Arith { op: Op::Add, .. } => Kind::Add,
        Instr::Arith { op: Op::Sub, .. } => Kind::Sub,
        Instr::Arith { op: Op::Mul, .. } => Kind::Mul,
        Instr::Bnz { .. } => Kind::Bnz,
        Instr::Ld { .. } => Kind::Ld,
        Instr::Malloc { .. } => Kind::Malloc,
        Instr::Mov { .. } => Kind::Mov,
        Instr::St { .. } => Kind::St,
        Instr::Unpack { .. } => Kind::Unpack,
    }
}

// How many fields the tuple has that an instruction makes.
fn fields_of(i: &Instr) -> u64
    ensures { result ≡ fields_of (instr_tree i.now) }
{
    match i {
        Instr::Malloc { types, .. } => types.len() as u64,
        _ => 0,
    }
}

fn end_kind(end: &End) -> Kind
    ensures { result ≡ end_kind (end_of end.now) }
{
    match end {
        End::Jmp(_) => Kind::Jmp,
        End::Halt => Kind::Halt,
    }
}

// The number of a kind, by which kinds are told apart.
pub(crate) fn number(kind: Kind) -> u64
    ensures { result ≡ number kind }
{
    match kind {
        Kind::Add => 0,
        Kind::Sub => 1,
        Kind::Mul => 2,
        Kind::Bnz => 3,
        Kind::Ld => 4,
        Kind::Malloc => 5,
        Kind::Mov => 6,
        Kind::St => 7,
        Kind::Unpack => 8,
        Kind::Jmp => 9,
        Kind::Halt => 10,
    }
}

// How often a place was executed, by its number in the program; not at all where there is no count of it.
fn count_at(counts: &[u64], at: usize) -> u64
    ensures { result ≡ slice_index counts.now at }
{
    match counts.get(at) {
        Some(count) => *count,
        None => 0,
    }
}

// Puts the places of a block behind those of the blocks before it.
fn put_block(places: &mut Vec<Place>, block: &Block, counts: &[u64]) -> Result<(), OutOfMemory>
    ensures { OnOk result (places.new.items
        ≡ places.old.items ++ block_places counts.now (length places.old.items) (spanned block.now)) }
{
    let mut index = 0;
    for step in &block.body {
        let count = count_at(counts, places.len());
        places.push(Place {
            label: block.name,
            index,
            kind: kind_of(&step.0),
            fields: fields_of(&step.0),
            start: step.1.start,
            count,
        })?;
        index += 1;
    }
    let count = count_at(counts, places.len());
    places.push(Place {
        label: block.name,
        index,
        kind: end_kind(&block.end),
        fields: 0,
        start: block.end_span.start,
        count,
    })?;
    Ok(())
}

// The places of blocks, the one after the other.
pub(crate) fn places_of(
    alloc: Global,
    blocks: &[Block],
    counts: &[u64],
) -> Result<Vec<Place>, OutOfMemory>
    ensures { IfOk result (λ made. made.items ≡ places counts.now 0 (spanned_blocks blocks.now)) }
{
    let mut made = Vec::new(alloc);
    for block in blocks {
        put_block(&mut made, block, counts)?;
    }
    Ok(made)
}
