// What is said of all blocks of a program.
ghost use Rattle.std.specs.Prelude.{◌≡◌, ◌++◌, ◌∷◌, [], ℕ, suc, false, true, OnOk, IfOk, codes, map};
ghost use Rattle.t_terms.specs.Read.{base as base_tree, instr as instr_tree, end_of, block as block_tree, blocks_of};
ghost use Rattle.t_rules.specs.Erase.{erase_instr, erase_end, erase_block};
ghost use Rattle.x_listing.specs.Notes as spec;
ghost use Rattle.x_listing.specs.Read.{note as note_tree, notes_of as notes_tree, texts};
ghost use Rattle.x_listing.specs.Said.{work_of};

use crate::note::Note;
use crate::runtime::runtime_notes;
use crate::told::{base_of, write_block_name, write_instr, write_last, write_place};
use idx_core::{OutOfMemory, sum};
use std::alloc::Global;
use std::mem;
use t_terms::{Base, Block, End, Instr};

// What was said so far, of blocks of the program and of those that are made beside them; and of the block at hand.
#[derive(Drop)]
pub(crate) struct Work {
    pub firsts: Vec<Note>,
    pub rest: Vec<Note>,
    pub beside: bool,
    pub name: Vec<u8>,
    pub before: Vec<Vec<u8>>,
}

// One more remark.
fn tell(work: &mut Work, text: Vec<u8>) -> Result<(), OutOfMemory>
    ensures { OnOk result (work_of work.new ≡ spec.told text.items (work_of work.old)) }
{
    work.before.push(text)?;
    Ok(())
}

// Puts what was said of a block to the others.
#[tactic(auto, using(crate::proofs::Sayings::notes_push))]
fn put(
    firsts: &mut Vec<Note>,
    rest: &mut Vec<Note>,
    beside: bool,
    note: Note,
) -> Result<(), OutOfMemory>
    ensures firsts { OnOk result
        (notes_tree firsts.new.items ≡ spec.put_first beside (notes_tree firsts.old.items) (note_tree note)) }
    ensures rest { OnOk result
        (notes_tree rest.new.items ≡ spec.put_rest beside (notes_tree rest.old.items) (note_tree note)) }
{
    if beside {
        rest.push(note)?;
    } else {
        firsts.push(note)?;
    }
    Ok(())
}

// The block at hand is done, and another one is begun.
fn part(
    work: &mut Work,
    beside: bool,
    name: Vec<u8>,
    before: Vec<Vec<u8>>,
) -> Result<(), OutOfMemory>
    ensures { OnOk result
        (work_of work.new ≡ spec.parted beside name.items (texts before.items) (work_of work.old)) }
{
    let note = Note {
        name: mem::replace(&mut work.name, name),
        before: mem::replace(&mut work.before, before),
    };
    let was = work.beside;
    put(&mut work.firsts, &mut work.rest, was, note)?;
    work.beside = beside;
    Ok(())
}

// The name of a block, and that of a place.
fn block_name(alloc: Global, b: u64) -> Result<Vec<u8>, OutOfMemory>
    ensures { IfOk result (λ text. text.items ≡ spec.block_name b) }
{
    let mut text = Vec::new(alloc);
    write_block_name(&mut text, b)?;
    Ok(text)
}

fn place_name(alloc: Global, b: u64, i: u64) -> Result<Vec<u8>, OutOfMemory>
    ensures { IfOk result (λ text. text.items ≡ spec.place_name b i) }
{
    let mut text = Vec::new(alloc);
    write_place(&mut text, b, i)?;
    Ok(text)
}

// What is said at a place.
fn said_instr(alloc: Global, b: u64, i: u64, instr: &Instr) -> Result<Vec<u8>, OutOfMemory>
    ensures { IfOk result
        (λ text. text.items ≡ spec.said b i (spec.instr (erase_instr (instr_tree instr.now)))) }
{
    let mut text = place_name(alloc, b, i)?;
    text.extend_from_slice(b"  ")?;
    write_instr(&mut text, instr)?;
    Ok(text)
}

fn said_end(alloc: Global, b: u64, i: u64, end: &End) -> Result<Vec<u8>, OutOfMemory>
    ensures { IfOk result (λ text. text.items ≡ spec.said b i (spec.last (erase_end (end_of end.now)))) }
{
    let mut text = place_name(alloc, b, i)?;
    text.extend_from_slice(b"  ")?;
    write_last(&mut text, end)?;
    Ok(text)
}

// Four instructions of which nothing is said.
fn silent(alloc: Global) -> Result<Vec<Vec<u8>>, OutOfMemory>
    ensures { IfOk result (λ before. texts before.items ≡ spec.rests) }
{
    let mut before = Vec::new(alloc);
    before.push(Vec::new(alloc))?;
    before.push(Vec::new(alloc))?;
    before.push(Vec::new(alloc))?;
    before.push(Vec::new(alloc))?;
    Ok(before)
}

// Behind a `malloc` the block goes on in its midst.
fn part_malloc(alloc: Global, work: &mut Work, b: u64, i: u64) -> Result<(), OutOfMemory>
    ensures { OnOk result
        (work_of work.new ≡ spec.parted true (spec.place_name b i ++ codes "+") spec.rests (work_of work.old)) }
{
    let mut name = place_name(alloc, b, i)?;
    name.push(b'+')?;
    let before = silent(alloc)?;
    part(work, true, name, before)
}

// Behind a branch to a register another block goes on.
fn part_branch(alloc: Global, work: &mut Work, b: u64, i: u64, v: Base) -> Result<(), OutOfMemory>
    ensures { OnOk result
        (work_of work.new ≡ spec.branched b i (base_tree v) (work_of work.old)) }
{
    match v {
        Base::Reg(_) => {
            let next = sum(i, 1)?;
            let name = place_name(alloc, b, next)?;
            part(work, true, name, Vec::new(alloc))
        }
        Base::Int(_) => Ok(()),
        Base::Label(_) => Ok(()),
        Base::Data(_) => Ok(()),
    }
}

// What comes behind an instruction.
fn go_on(alloc: Global, work: &mut Work, b: u64, i: u64, instr: &Instr) -> Result<(), OutOfMemory>
    ensures { OnOk result
        (work_of work.new ≡ spec.went_on b i (erase_instr (instr_tree instr.now)) (work_of work.old)) }
{
    match instr {
        Instr::Bnz { r: _, v } => part_branch(alloc, work, b, i, base_of(v)),
        Instr::Malloc { rd: _, types: _ } => part_malloc(alloc, work, b, i),
        _ => Ok(()),
    }
}

// An instruction.
fn step(alloc: Global, work: &mut Work, b: u64, i: u64, instr: &Instr) -> Result<(), OutOfMemory>
    ensures { OnOk result
        (work_of work.new ≡ spec.stepped b i (erase_instr (instr_tree instr.now)) (work_of work.old)) }
{
    let text = said_instr(alloc, b, i, instr)?;
    tell(work, text)?;
    go_on(alloc, work, b, i, instr)
}

// The end of a block.
fn end(alloc: Global, work: &mut Work, b: u64, i: u64, last: &End) -> Result<(), OutOfMemory>
    ensures { OnOk result
        (work_of work.new ≡ spec.walked b i (erase_end (end_of last.now)) (work_of work.old)) }
{
    let text = said_end(alloc, b, i, last)?;
    tell(work, text)?;
    let next = sum(b, 1)?;
    let name = block_name(alloc, next)?;
    part(work, false, name, Vec::new(alloc))
}

// A block.
fn walk(alloc: Global, work: &mut Work, b: u64, block: &Block) -> Result<(), OutOfMemory>
    ensures { OnOk result
        (work_of work.new ≡ spec.walked b 0 (erase_block (block_tree block.now)) (work_of work.old)) }
{
    let body = block.body.as_slice();
    for (i, one) in body.iter().enumerate() {
        step(alloc, work, b, i as u64, &one.0)?;
    }
    end(alloc, work, b, body.len() as u64, &block.end)
}

// All blocks.
fn walk_all(alloc: Global, work: &mut Work, blocks: &[Block]) -> Result<(), OutOfMemory>
    ensures { OnOk result
        (work_of work.new ≡ spec.all_walked 0 (map erase_block (blocks_of blocks.now)) (work_of work.old)) }
{
    for (b, block) in blocks.iter().enumerate() {
        walk(alloc, work, b as u64, block)?;
    }
    Ok(())
}

fn begin(alloc: Global) -> Result<Work, OutOfMemory>
    ensures { IfOk result (λ work. work_of work ≡ spec.begun) }
{
    let firsts = runtime_notes(alloc)?;
    let name = block_name(alloc, 0)?;
    Ok(Work {
        firsts,
        rest: Vec::new(alloc),
        beside: false,
        name,
        before: Vec::new(alloc),
    })
}

/// What a listing says of the blocks of word code that are made of the blocks of a program. An error is want of memory.
#[tactic(auto, using(crate::proofs::Sayings::notes_both))]
pub fn notes_of(alloc: Global, blocks: &[Block]) -> Result<Vec<Note>, OutOfMemory>
    ensures { IfOk result
        (λ notes. notes_tree notes.items ≡ spec.notes_of (map erase_block (blocks_of blocks.now))) }
{
    let mut work = begin(alloc)?;
    walk_all(alloc, &mut work, blocks)?;
    let Work {
        firsts,
        rest,
        beside: _,
        name: _,
        before: _,
    } = work;
    let mut notes = firsts;
    let mut more = rest;
    notes.append(&mut more)?;
    Ok(notes)
}
