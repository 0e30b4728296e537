// Loading: registers get places, and types and packages are left out.
ghost use Rattle.std.specs.Prelude.{◌≡◌, ℕ, ◌+◌, List, [], ◌∷◌, ◌++◌, length, map, slice_index, IfOk, OnOk};
ghost use Rattle.t_terms.specs.Read.{base as base_tree, value as value_tree, instr as instr_tree, end_of};
ghost use Rattle.t_terms.specs.Read.{block as block_tree, blocks_of, data_fields, data_of};
ghost use Rattle.t_terms.specs.ReadProgram.{program as program_of};
ghost use Rattle.t_terms.specs.Spanned.{plain_fields};
ghost use Rattle.t_terms.specs.Whole.{WellFormedValue, WellFormedInstr, WellFormedBlock, WellFormedBlocks};
ghost use Rattle.t_terms.specs.Whole.{WellFormedData, WellFormedHeap};
ghost use Rattle.t_check.specs.Checked.{checked_program};
ghost use Rattle.t_rules.specs.Erase.{ESeq, EHeap, ELd, EMov, ESt, erase_blocks, base_word, no_ewords, field_word};
ghost use Rattle.t_rules.specs.Erase.{erase_value, erase_instr, erase_end, erase_block, erase_datum};
ghost use Rattle.t_collect.specs.Cells.{cells_of};
ghost use Rattle.t_machine.specs.Heap.{IsHeap, IsFresh, Started, AllStarted};
ghost use Rattle.t_machine.specs.Words.{word};
ghost use Rattle.t_machine.specs.Places.{Extends};
ghost use Rattle.t_machine.specs.Action.{action, data_word, moved_data};
ghost use Rattle.t_machine.specs.Code.{IsBase, IsNumber, IsTarget, IsInstr, IsEnd, IsCode, all_moved};
ghost use Rattle.t_machine.specs.Laid.{size, begins, Adds, InOperand, InInstruction, InBlock, IsLaid, IsNamed};
ghost use Rattle.t_machine.specs.Lowering.{IsFilled};
ghost use Rattle.t_machine.specs.Pairs.{ArePairs};
ghost use Rattle.t_machine.specs.Room.{most_tuples, most_fields, SameCaps, IsUncapped};
ghost use Rattle.t_machine.specs.Runs.{Stands};

use crate::code::{Code, Instruction, Number, Operand, Target};
use crate::heap::Heap;
use crate::laws::programs_keep_laws;
use crate::machine::Machine;
use crate::pairs::join_pairs;
use crate::places::Places;
use crate::starts::{data_address, load_starts, sum};
use idx_core::{OutOfMemory, Span};
use std::alloc::Global;
use t_check::Checked;
use t_collect::Word;
use t_terms::{Base, Block, Data, End, Instr, Value};
use t_types::TType;

/// A machine that stands at the start of the program. It takes a place for each register that the program names and for
/// no other, and the data and the code; a run takes memory at a `malloc` alone. Its code is the blocks one after the
/// other, so that a place in it tells the block and the instruction (`places_are_read_back`). Answers want of memory
/// also where the program names more than 2^32 registers, or its code has more places than an index can tell, and where
/// its data have more than 2^32 - 1 tuples or fields. What the machine may keep has no other cap (`within`).
pub fn load(alloc: Global, program: &Checked) -> Result<Machine, OutOfMemory>
    ensures stands { IfOk result (Stands (program_of (checked_program program.now)) 0) }
    ensures uncapped { IfOk result (λ x. (most_tuples x ≡ 4294967295) × (most_fields x ≡ 4294967295)) }
    ensures laid { IfOk result (λ x. IsLaid x.code (erase_blocks (program_of (checked_program program.now)))) }
    ensures named { IfOk result (λ x. IsNamed x.code (erase_blocks (program_of (checked_program program.now)))) }
{
    programs_keep_laws();
    let program = program.program();
    let starts = load_starts(alloc, &program.heap)?;
    let code = load_code(alloc, &program.blocks, &starts)?;
    let count = code.places.len();
    let mut registers = Vec::new(alloc);
    registers.resize(count, Word::Empty(0))?;
    let at = code.entries[0];
    let heap = load_heap(alloc, &program.heap, &starts)?;
    Ok(Machine {
        heap,
        registers,
        code,
        at,
    })
}

// The data tuples, one after the other. Here, and in what is called below, a program is whole that has as many data
// tuples as there are starts: so each that is named is there.
fn load_heap(alloc: Global, tuples: &[Data], starts: &[u32]) -> Result<Heap, OutOfMemory>
    requires { (p : ℕ) × WellFormedHeap p (length starts.now) (data_of tuples.now) }
    ensures heap { IfOk result (λ x. IsHeap x (map (map erase_datum) (data_of tuples.now))) }
    ensures started { IfOk result (λ x. AllStarted starts.now (cells_of x.cells)) }
    ensures fresh { IfOk result IsFresh }
    ensures caps { IfOk result IsUncapped }
{
    let mut heap = Heap::new(alloc);
    for tuple in tuples {
        load_tuple(&mut heap, &tuple.fields, starts)?;
    }
    heap.fixed = heap.starts.len() as u32;
    Ok(heap)
}

// Puts a data tuple after the tuples of the heap.
fn load_tuple(
    heap: &mut Heap,
    fields: &[(Value, TType, Span)],
    starts: &[u32],
) -> Result<(), OutOfMemory>
    requires { (p : ℕ) × WellFormedData p (length starts.now) (plain_fields (data_fields fields.now)) }
    ensures heap { OnOk result ((h : EHeap) → IsHeap heap.old h →
        IsHeap heap.new (h ++ map erase_datum (plain_fields (data_fields fields.now)) ∷ [])) }
    ensures started { OnOk result (AllStarted starts.now (cells_of heap.old.cells) →
        AllStarted starts.now (cells_of heap.new.cells)) }
    ensures kept { OnOk result (heap.new.kept.items ≡ heap.old.kept.items) }
    ensures dropped { OnOk result (heap.new.dropped ≡ heap.old.dropped) }
    ensures caps { OnOk result (SameCaps heap.old heap.new) }
{
    heap.start_tuple()?;
    for field in fields {
        let word = load_word(&field.0, starts)?;
        heap.cells.push(word)?;
    }
    Ok(())
}

// The word of a value of data, which names no register.
fn load_word(v: &Value, starts: &[u32]) -> Result<Word, OutOfMemory>
    requires { (p : ℕ) × (n : ℕ) × WellFormedValue p (length starts.now) n (value_tree v.now) }
    ensures same { IfOk result (λ w. word w ≡ field_word (base_word no_ewords (erase_value (value_tree v.now)))) }
    ensures started { IfOk result (Started starts.now) }
{
    match base_of(v) {
        Base::Reg(_) => Ok(Word::Empty(0)),
        Base::Int(i) => Ok(Word::Int(i)),
        Base::Label(l) => Ok(Word::Label(l as usize)),
        Base::Data(d) => {
            let address = data_address(starts, d)?;
            Ok(Word::Address(address))
        }
    }
}

// The code of the blocks, in which pairs are joined.
fn load_code(alloc: Global, blocks: &[Block], starts: &[u32]) -> Result<Code, OutOfMemory>
    requires { (p : ℕ) × WellFormedBlocks p (length starts.now) (blocks_of blocks.now) }
    ensures code { IfOk result (λ x. IsCode x (map erase_block (blocks_of blocks.now))) }
    ensures laid { IfOk result (λ x. IsLaid x (map erase_block (blocks_of blocks.now))) }
    ensures named { IfOk result (λ x. IsNamed x (map erase_block (blocks_of blocks.now))) }
    ensures started { IfOk result (λ x. AllStarted starts.now (all_moved x.instructions.items)) }
    ensures paired { IfOk result (λ x. ArePairs x.instructions.items) }
{
    let mut code = load_blocks(alloc, blocks, starts)?;
    join_pairs(&mut code.instructions);
    Ok(code)
}

// The code of the blocks, instruction by instruction.
fn load_blocks(alloc: Global, blocks: &[Block], starts: &[u32]) -> Result<Code, OutOfMemory>
    requires { (p : ℕ) × WellFormedBlocks p (length starts.now) (blocks_of blocks.now) }
    ensures code { IfOk result (λ x. IsCode x (map erase_block (blocks_of blocks.now))) }
    ensures laid { IfOk result (λ x. IsLaid x (map erase_block (blocks_of blocks.now))) }
    ensures named { IfOk result (λ x. IsNamed x (map erase_block (blocks_of blocks.now))) }
    ensures started { IfOk result (λ x. AllStarted starts.now (all_moved x.instructions.items)) }
{
    let entries = load_entries(alloc, blocks)?;
    let mut code = Code {
        instructions: Vec::new(alloc),
        entries,
        places: Places::new(alloc),
    };
    for block in blocks {
        load_block(&mut code, block, starts)?;
    }
    Ok(code)
}

// Where each block is to begin in the code.
fn load_entries(alloc: Global, blocks: &[Block]) -> Result<Vec<usize>, OutOfMemory>
    ensures { IfOk result (λ v. v.items ≡ begins 0 (map erase_block (blocks_of blocks.now))) }
{
    let mut entries = Vec::new(alloc);
    let mut start = 0;
    for block in blocks {
        entries.push(start)?;
        let end = block_end(start, block)?;
        start = end;
    }
    Ok(entries)
}

// Where a block ends that begins at the place.
fn block_end(start: usize, block: &Block) -> Result<usize, OutOfMemory>
    ensures { IfOk result (λ n. n ≡ start + size (erase_block (block_tree block.now))) }
{
    let count = block.body.len();
    let Some(last) = start.checked_add(count) else {
        return Err(OutOfMemory);
    };
    match last.checked_add(1) {
        Some(end) => Ok(end),
        None => Err(OutOfMemory),
    }
}

// Puts a block after the blocks of the code.
fn load_block(code: &mut Code, block: &Block, starts: &[u32]) -> Result<(), OutOfMemory>
    requires { (p : ℕ) × WellFormedBlock p (length starts.now) (block_tree block.now) }
    ensures filled { OnOk result ((cs : List ESeq) → IsFilled code.old cs →
        IsFilled code.new (cs ++ erase_block (block_tree block.now) ∷ [])) }
    ensures entries { OnOk result (code.new.entries.items ≡ code.old.entries.items) }
    ensures named { OnOk result (Adds code.old.places code.new.places (InBlock (erase_block (block_tree block.now)))) }
    ensures started { OnOk result (AllStarted starts.now (all_moved code.old.instructions.items) →
        AllStarted starts.now (all_moved code.new.instructions.items)) }
{
    for step in &block.body {
        let instruction = load_instr(&mut code.places, &code.entries, starts, &step.0)?;
        code.instructions.push(instruction)?;
    }
    let last = load_end(&mut code.places, &code.entries, &block.end)?;
    code.instructions.push(last)?;
    Ok(())
}

fn load_instr(
    places: &mut Places,
    entries: &[usize],
    starts: &[u32],
    i: &Instr,
) -> Result<Instruction, OutOfMemory>
    requires { (p : ℕ) × (n : ℕ) × WellFormedInstr p (length starts.now) n (instr_tree i.now) }
    ensures same { IfOk result (λ o. IsInstr places.new entries.now (action o) (erase_instr (instr_tree i.now))) }
    ensures kept { OnOk result (Extends places.old places.new) }
    ensures named { OnOk result (Adds places.old places.new (InInstruction (erase_instr (instr_tree i.now)))) }
    ensures started { IfOk result (λ o. Started starts.now (moved_data (action o))) }
{
    match i {
        Instr::Arith { op, rd, rs, v } => {
            let rd = places.place(*rd)?;
            let rs = places.place(*rs)?;
            let v = load_number(places, v)?;
            let arith = Instruction::arith(*op, rd, rs, v);
            Ok(arith)
        }
        Instr::Bnz { r, v } => {
            let r = places.place(*r)?;
            let v = load_target(places, entries, v)?;
            let bnz = Instruction::bnz(r, v);
            Ok(bnz)
        }
        Instr::Ld { rd, rs, field } => load_read(places, *rd, *rs, *field),
        Instr::Malloc { rd, types } => {
            let rd = places.place(*rd)?;
            Ok(Instruction::Malloc {
                rd,
                size: types.len(),
            })
        }
        Instr::Mov { rd, v } => load_move(places, starts, *rd, v),
        Instr::St { rd, field, rs } => load_write(places, *rd, *field, *rs),
        Instr::Unpack { rd, v } => load_move(places, starts, *rd, v),
    }
}

// A read of a field.
fn load_read(places: &mut Places, rd: u64, rs: u64, field: u64) -> Result<Instruction, OutOfMemory>
    ensures same { IfOk result (λ o. (es : List ℕ) → IsInstr places.new es (action o) (ELd rd rs field)) }
    ensures kept { OnOk result (Extends places.old places.new) }
    ensures named { OnOk result (Adds places.old places.new (InInstruction (ELd rd rs field))) }
    ensures no_data { IfOk result (λ o. moved_data (action o) ≡ Word.Empty 0) }
{
    let rd = places.place(rd)?;
    let rs = places.place(rs)?;
    let field = field as usize;
    Ok(Instruction::Ld { rd, rs, field })
}

// A write of a field.
fn load_write(places: &mut Places, rd: u64, field: u64, rs: u64) -> Result<Instruction, OutOfMemory>
    ensures same { IfOk result (λ o. (es : List ℕ) → IsInstr places.new es (action o) (ESt rd field rs)) }
    ensures kept { OnOk result (Extends places.old places.new) }
    ensures named { OnOk result (Adds places.old places.new (InInstruction (ESt rd field rs))) }
    ensures no_data { IfOk result (λ o. moved_data (action o) ≡ Word.Empty 0) }
{
    let rd = places.place(rd)?;
    let rs = places.place(rs)?;
    let field = field as usize;
    Ok(Instruction::St { rd, field, rs })
}

// A move, or an unpack, which is one without types.
fn load_move(
    places: &mut Places,
    starts: &[u32],
    rd: u64,
    v: &Value,
) -> Result<Instruction, OutOfMemory>
    requires { (p : ℕ) × (n : ℕ) × WellFormedValue p (length starts.now) n (value_tree v.now) }
    ensures same { IfOk result (λ o. (es : List ℕ) →
        IsInstr places.new es (action o) (EMov rd (erase_value (value_tree v.now)))) }
    ensures kept { OnOk result (Extends places.old places.new) }
    ensures named { OnOk result (Adds places.old places.new
        (InInstruction (EMov rd (erase_value (value_tree v.now))))) }
    ensures started { IfOk result (λ o. Started starts.now (moved_data (action o))) }
{
    let rd = places.place(rd)?;
    let v = load_value(places, starts, v)?;
    let mov = Instruction::mov(rd, v);
    Ok(mov)
}

fn load_end(places: &mut Places, entries: &[usize], end: &End) -> Result<Instruction, OutOfMemory>
    ensures same { IfOk result (λ o. IsEnd places.new entries.now (action o) (erase_end (end_of end.now))) }
    ensures kept { OnOk result (Extends places.old places.new) }
    ensures named { OnOk result (Adds places.old places.new (InBlock (erase_end (end_of end.now)))) }
    ensures no_data { IfOk result (λ o. moved_data (action o) ≡ Word.Empty 0) }
{
    match end {
        End::Jmp(v) => {
            let v = load_target(places, entries, v)?;
            let jmp = Instruction::jmp(v);
            Ok(jmp)
        }
        End::Halt => {
            let r = places.place(1)?;
            Ok(Instruction::Halt { r })
        }
    }
}

fn load_value(places: &mut Places, starts: &[u32], v: &Value) -> Result<Operand, OutOfMemory>
    requires { (p : ℕ) × (n : ℕ) × WellFormedValue p (length starts.now) n (value_tree v.now) }
    ensures same { IfOk result (λ o. IsBase places.new o (erase_value (value_tree v.now))) }
    ensures kept { OnOk result (Extends places.old places.new) }
    ensures named { OnOk result (Adds places.old places.new (InOperand (erase_value (value_tree v.now)))) }
    ensures started { IfOk result (λ o. Started starts.now (data_word o)) }
{
    match base_of(v) {
        Base::Reg(r) => {
            let place = places.place(r)?;
            Ok(Operand::Register(place))
        }
        Base::Int(i) => Ok(Operand::Int(i)),
        Base::Label(l) => Ok(Operand::Label(l as usize)),
        Base::Data(d) => {
            let address = data_address(starts, d)?;
            Ok(Operand::Data(address))
        }
    }
}

// The right operand of an operation. What is no integer, with which no accepted program computes, counts as 0.
fn load_number(places: &mut Places, v: &Value) -> Result<Number, OutOfMemory>
    ensures same { IfOk result (λ o. IsNumber places.new o (erase_value (value_tree v.now))) }
    ensures kept { OnOk result (Extends places.old places.new) }
    ensures named { OnOk result (Adds places.old places.new (InOperand (erase_value (value_tree v.now)))) }
{
    match base_of(v) {
        Base::Reg(r) => {
            let place = places.place(r)?;
            Ok(Number::Register(place))
        }
        Base::Int(i) => Ok(Number::Int(i)),
        Base::Label(_) => Ok(Number::Int(0)),
        Base::Data(_) => Ok(Number::Int(0)),
    }
}

// Where a branch or a jump leads. What is no label, to which no accepted program goes, counts as the first place.
fn load_target(places: &mut Places, entries: &[usize], v: &Value) -> Result<Target, OutOfMemory>
    ensures same { IfOk result (λ o. IsTarget places.new entries.now o (erase_value (value_tree v.now))) }
    ensures kept { OnOk result (Extends places.old places.new) }
    ensures named { OnOk result (Adds places.old places.new (InOperand (erase_value (value_tree v.now)))) }
{
    match base_of(v) {
        Base::Reg(r) => {
            let place = places.place(r)?;
            Ok(Target::Register(place))
        }
        Base::Label(l) => Ok(Target::Entry(entry(entries, l))),
        Base::Int(_) => Ok(Target::Entry(0)),
        Base::Data(_) => Ok(Target::Entry(0)),
    }
}

// Where the block of a label begins, or 0 where there is no such block.
fn entry(entries: &[usize], label: u64) -> usize
    ensures { result ≡ slice_index entries.now label }
{
    match entries.get(label as usize) {
        Some(start) => *start,
        None => 0,
    }
}

// What a value is without its types and packages.
fn base_of(v: &Value) -> Base
    ensures { base_tree result ≡ erase_value (value_tree v.now) }
{
    match v {
        Value::Plain { base, types: _ } => *base,
        Value::Pack {
            hidden: _,
            inner,
            shape: _,
        } => base_of(inner),
    }
}
