// Whole programs.
ghost use Rattle.std.specs.Prelude.{◌≡◌, ◌∷◌, ◌≤◌, ◌<◌, ◌^◌, IfOk, length, map};
ghost use Rattle.t_terms.specs.Read.{block as block_tree, blocks_of, data_of, data_fields as data_items};
ghost use Rattle.t_terms.specs.Spanned.{plain_fields};
ghost use Rattle.t_terms.specs.ReadProgram.{program as program_tree};
ghost use Rattle.t_rules.specs.Rules.{Accepted};
ghost use Rattle.t_spill_rules.specs.Spill.{sp_blocks, sp_data, entry, spilled, TypesFew};
ghost use Rattle.t_spill_laws.specs.Correct.{origin};
ghost use Rattle.t_spill_laws.specs.Bounded.{Spills};
ghost use Rattle.t_terms.specs.Values.{DataValues, HeapValues};
ghost use Rattle.t_spill.specs.Ready.{BlocksReady};
ghost use Rattle.t_spill_code.specs.Onto.{HasNext};

use crate::block::spilled_block;
use idx_core::{OutOfMemory, Span};
use std::alloc::Global;
use t_spill_code::{NOWHERE, Split, base_of, moved_base, spilled_type, spilled_value};
use t_terms::{Base, Block, Data, End, Instr, TProgram, Value};
use t_types::{RegFile, TType};

// The first block makes an empty frame, and enters the old first block.
fn entry_block(alloc: Global, split: Split) -> Result<Block, OutOfMemory>
    ensures { IfOk result (λ b. block_tree b ≡ entry split.low) }
{
    let mut body = Vec::new(alloc);
    let frame = Instr::Malloc {
        rd: split.frame(),
        types: Vec::new(alloc),
    };
    body.push((frame, NOWHERE))?;
    let first = Value::Plain {
        base: Base::Label(1),
        types: Vec::new(alloc),
    };
    Ok(Block {
        name: NOWHERE,
        owes: 0,
        regs: RegFile {
            regs: Vec::new(alloc),
        },
        body,
        end: End::Jmp(first),
        end_span: NOWHERE,
    })
}

fn spilled_blocks(
    alloc: Global,
    program: &TProgram,
    split: Split,
    blocks: &[Block],
) -> Result<Vec<Block>, OutOfMemory>
    requires ready { BlocksReady (program_tree program.now) (blocks_of blocks.now) }
    requires few { length (program_tree program.now).blocks < 2 ^ 64 }
    ensures { IfOk result (λ r.
        blocks_of r.items ≡ entry split.low ∷ sp_blocks split.low (program_tree program.now) (blocks_of blocks.now)) }
{
    let mut made = Vec::new(alloc);
    let entry = entry_block(alloc, split)?;
    made.push(entry)?;
    for block in blocks {
        let block = spilled_block(alloc, program, split, block)?;
        made.push(block)?;
    }
    Ok(made)
}

fn spilled_fields(
    alloc: Global,
    split: Split,
    fields: &[(Value, TType, Span)],
) -> Result<Vec<(Value, TType, Span)>, OutOfMemory>
    requires { DataValues HasNext (plain_fields (data_items fields.now)) }
    ensures { IfOk result (λ r.
        plain_fields (data_items r.items) ≡ sp_data split.low (plain_fields (data_items fields.now))) }
{
    let mut made = Vec::new(alloc);
    for field in fields {
        let base = moved_base(base_of(&field.0));
        let value = spilled_value(alloc, split, &field.0, base)?;
        let ty = spilled_type(alloc, split, &field.1)?;
        made.push((value, ty, NOWHERE))?;
    }
    Ok(made)
}

fn spilled_tuple(alloc: Global, split: Split, tuple: &Data) -> Result<Data, OutOfMemory>
    requires { DataValues HasNext (plain_fields (data_items tuple.now.fields.items)) }
    ensures { IfOk result (λ r.
        plain_fields (data_items r.fields.items) ≡
        sp_data split.low (plain_fields (data_items tuple.now.fields.items))) }
{
    let fields = spilled_fields(alloc, split, &tuple.fields)?;
    Ok(Data {
        name: NOWHERE,
        fields,
    })
}

fn spilled_heap(alloc: Global, split: Split, heap: &[Data]) -> Result<Vec<Data>, OutOfMemory>
    requires { HeapValues HasNext (data_of heap.now) }
    ensures { IfOk result (λ r. data_of r.items ≡ map (sp_data split.low) (data_of heap.now)) }
{
    let mut made = Vec::new(alloc);
    for tuple in heap {
        let tuple = spilled_tuple(alloc, split, tuple)?;
        made.push(tuple)?;
    }
    Ok(made)
}

// The program with frames and slots.
fn spilled_program(alloc: Global, program: &TProgram, k: u64) -> Result<TProgram, OutOfMemory>
    requires least { 8 ≤ k }
    requires accepted { ∥ Accepted (program_tree program.now) ∥₁ }
    requires names { ∥ TypesFew (program_tree program.now) ∥₁ }
    ensures { IfOk result (λ q. program_tree q ≡ spilled k (program_tree program.now)) }
{
    t_spill_laws::programs_are_whole();
    let split = Split::within(k);
    let blocks = spilled_blocks(alloc, program, split, &program.blocks)?;
    let heap = spilled_heap(alloc, split, &program.heap)?;
    Ok(TProgram::new(blocks, heap))
}

/// A program that means the same and has no register above `k`, in an instruction or in a register file at any depth of
/// a type. The typing rules accept it. Each of its places comes from a place of the program, and is executed no more
/// often than that place is the place of a state. Where the program has no package inside a package, hardly more
/// constructs are open in its text than the program's types reach. Answers want of memory alone.
pub fn spill(alloc: Global, program: &TProgram, k: u64) -> Result<TProgram, OutOfMemory>
    requires least { 8 ≤ k }
    requires accepted { ∥ Accepted (program_tree program.now) ∥₁ }
    requires names { ∥ TypesFew (program_tree program.now) ∥₁ }
    ensures is { IfOk result (λ q. program_tree q ≡ spilled k (program_tree program.now)) }
    ensures spills { IfOk result (λ q.
        ∥ Spills k (program_tree program.now) (program_tree q) (origin k (program_tree program.now)) ∥₁) }
{
    t_spill_laws::registers_are_bounded();
    let made = spilled_program(alloc, program, k)?;
    Ok(made)
}
