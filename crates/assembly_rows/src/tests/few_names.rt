// Whether a program binds few type names, so that what typing gives in it binds few as well.
ghost use Rattle.std.specs.Prelude.{◌↔◌, ◌≤◌, ℕ, IsTrue, length};
ghost use Rattle.t_types.specs.Read.{tree, file, fields as field_trees, types as type_trees};
ghost use Rattle.t_terms.specs.Spanned.{plain_fields, seq_of};
ghost use Rattle.t_terms.specs.Read.{value as value_tree, instr as instr_tree, end_of as end_tree, block as block_tree};
ghost use Rattle.t_terms.specs.Read.{body as body_trees, blocks_of, data_of, data_fields as data_items};
ghost use Rattle.t_terms.specs.ReadProgram.{program as program_tree};
ghost use Rattle.t_spill_rules.specs.Spill.{TypesFew};
ghost use Rattle.assembly_rows.specs.FewNames.{FewInType, FewInFile, FewInFields, FewInTypes, FewInValue, FewInInstr};
ghost use Rattle.assembly_rows.specs.FewNames.{FewInEnd, FewInSeq, FewInBlock, FewInBlocks, FewInData, FewInHeap};

use idx_core::Span;
use t_terms::{Block, Data, End, Instr, TProgram, Value};
use t_types::TType;

// At most this many names are bound around a place in a type, and this many instructions stand in a block.
const MOST: u64 = 1000;

const LONGEST: usize = 1000000;

#[cycle(types)]
fn few_in_type(t: &TType, k: u64) -> bool
    ensures { IsTrue result ↔ FewInType k (tree t.now) }
{
    match t {
        TType::Int => true,
        TType::Var(_) => true,
        TType::Code { owes, regs } => *owes <= k && few_in_file(&regs.regs, k - *owes),
        TType::Exists(hidden) => 1 <= k && few_in_type(hidden, k - 1),
        TType::Tuple(fields) => few_in_fields(fields, k),
    }
}

#[cycle(types)]
fn few_in_file(regs: &[(u64, TType)], k: u64) -> bool
    ensures { IsTrue result ↔ FewInFile k (file regs.now) }
{
    for reg in regs {
        if !few_in_type(&reg.1, k) {
            return false;
        }
    }
    true
}

#[cycle(types)]
fn few_in_fields(fields: &[(TType, bool)], k: u64) -> bool
    ensures { IsTrue result ↔ FewInFields k (field_trees fields.now) }
{
    for field in fields {
        if !few_in_type(&field.0, k) {
            return false;
        }
    }
    true
}

fn few_in_types(types: &[TType], k: u64) -> bool
    ensures { IsTrue result ↔ FewInTypes k (type_trees types.now) }
{
    for t in types {
        if !few_in_type(t, k) {
            return false;
        }
    }
    true
}

fn few_in_value(v: &Value, k: u64) -> bool
    ensures { IsTrue result ↔ FewInValue k (value_tree v.now) }
{
    match v {
        Value::Plain { types, .. } => few_in_types(types, 0),
        Value::Pack { shape, .. } => few_in_type(shape, k),
    }
}

fn few_in_instr(i: &Instr, k: u64) -> bool
    ensures { IsTrue result ↔ FewInInstr k (instr_tree i.now) }
{
    match i {
        Instr::Arith { v, .. } => few_in_value(v, k),
        Instr::Bnz { v, .. } => few_in_value(v, k),
        Instr::Ld { .. } => true,
        Instr::Malloc { types, .. } => few_in_types(types, k),
        Instr::Mov { v, .. } => few_in_value(v, k),
        Instr::St { .. } => true,
        Instr::Unpack { v, .. } => few_in_value(v, k),
    }
}

fn few_in_end(end: &End, k: u64) -> bool
    ensures { IsTrue result ↔ FewInEnd k (end_tree end.now) }
{
    match end {
        End::Jmp(v) => few_in_value(v, k),
        End::Halt => true,
    }
}

fn few_in_code(body: &[(Instr, Span)], end: &End, k: u64) -> bool
    ensures { IsTrue result ↔ FewInSeq k (seq_of (body_trees body.now) (end_tree end.now)) }
{
    for entry in body {
        if !few_in_instr(&entry.0, k) {
            return false;
        }
    }
    few_in_end(end, k)
}

fn few_in_block(block: &Block) -> bool
    ensures { IsTrue result → FewInBlock 1000 (block_tree block.now) }
{
    if block.owes > MOST {
        return false;
    }
    if !few_in_file(&block.regs.regs, MOST) {
        return false;
    }
    if block.body.len() > LONGEST {
        return false;
    }
    few_in_code(&block.body, &block.end, MOST)
}

fn few_in_blocks(blocks: &[Block]) -> bool
    ensures { IsTrue result → FewInBlocks 1000 (blocks_of blocks.now) }
{
    for block in blocks {
        if !few_in_block(block) {
            return false;
        }
    }
    true
}

fn few_in_data(fields: &[(Value, TType, Span)], k: u64) -> bool
    ensures { IsTrue result ↔ FewInData k (plain_fields (data_items fields.now)) }
{
    for field in fields {
        if !few_in_type(&field.1, k) {
            return false;
        }
    }
    true
}

fn few_in_heap(heap: &[Data], k: u64) -> bool
    ensures { IsTrue result ↔ FewInHeap k (data_of heap.now) }
{
    for tuple in heap {
        if !few_in_data(&tuple.fields, k) {
            return false;
        }
    }
    true
}

/// True only where what typing gives in the program binds few enough type names for `spill`.
pub fn has_few_names(program: &TProgram) -> bool
    ensures { IsTrue result → ∥ TypesFew (program_tree program.now) ∥₁ }
{
    few_in_blocks(&program.blocks) && few_in_heap(&program.heap, MOST)
}
