// Whether a program has no register above a bound.
ghost use Rattle.std.specs.Prelude.{◌↔◌, ◌≤◌, IsTrue};
ghost use Rattle.t_types.specs.Read.{tree, file, fields as field_trees, types as type_trees};
ghost use Rattle.t_terms.specs.Spanned.{plain_fields, seq_of};
ghost use Rattle.t_terms.specs.Read.{base as base_tree, value as value_tree, instr as instr_tree, end_of as end_tree};
ghost use Rattle.t_terms.specs.Read.{body as body_trees, blocks_of, data_of, data_fields as data_items};
ghost use Rattle.t_terms.specs.ReadProgram.{program as program_tree};
ghost use Rattle.t_spill_laws.specs.Bound.{InType, InFile, InFields, InTypes, InBase, InValue, InInstr, InSeq};
ghost use Rattle.t_spill_laws.specs.Bound.{InBlocks};
ghost use Rattle.t_spill_laws.specs.Bound.{InData, InHeap, RegistersUpTo};
ghost use Rattle.t_spill.specs.Within.{EndWithin};

use idx_core::Span;
use t_terms::{Base, Block, Data, End, Instr, TProgram, Value};
use t_types::TType;

#[cycle(types)]
fn type_within(t: &TType, k: u64) -> bool
    ensures { IsTrue result ↔ InType k (tree t.now) }
{
    match t {
        TType::Int => true,
        TType::Var(_) => true,
        TType::Code { regs, .. } => file_within(&regs.regs, k),
        TType::Exists(hidden) => type_within(hidden, k),
        TType::Tuple(fields) => fields_within(fields, k),
    }
}

#[cycle(types)]
fn file_within(regs: &[(u64, TType)], k: u64) -> bool
    ensures { IsTrue result ↔ InFile k (file regs.now) }
{
    for reg in regs {
        if reg.0 > k {
            return false;
        }
        if !type_within(&reg.1, k) {
            return false;
        }
    }
    true
}

#[cycle(types)]
fn fields_within(fields: &[(TType, bool)], k: u64) -> bool
    ensures { IsTrue result ↔ InFields k (field_trees fields.now) }
{
    for field in fields {
        if !type_within(&field.0, k) {
            return false;
        }
    }
    true
}

fn types_within(types: &[TType], k: u64) -> bool
    ensures { IsTrue result ↔ InTypes k (type_trees types.now) }
{
    for t in types {
        if !type_within(t, k) {
            return false;
        }
    }
    true
}

fn base_within(base: Base, k: u64) -> bool
    ensures { IsTrue result ↔ InBase k (base_tree base) }
{
    match base {
        Base::Reg(r) => r <= k,
        Base::Int(_) => true,
        Base::Label(_) => true,
        Base::Data(_) => true,
    }
}

fn value_within(v: &Value, k: u64) -> bool
    ensures { IsTrue result ↔ InValue k (value_tree v.now) }
{
    match v {
        Value::Plain { base, types } => base_within(*base, k) && types_within(types, k),
        Value::Pack {
            hidden,
            inner,
            shape,
        } => type_within(hidden, k) && value_within(inner, k) && type_within(shape, k),
    }
}

fn instr_within(i: &Instr, k: u64) -> bool
    ensures { IsTrue result ↔ InInstr k (instr_tree i.now) }
{
    match i {
        Instr::Arith { rd, rs, v, .. } => *rd <= k && *rs <= k && value_within(v, k),
        Instr::Bnz { r, v } => *r <= k && value_within(v, k),
        Instr::Ld { rd, rs, .. } => *rd <= k && *rs <= k,
        Instr::Malloc { rd, types } => *rd <= k && types_within(types, k),
        Instr::Mov { rd, v } => *rd <= k && value_within(v, k),
        Instr::St { rd, rs, .. } => *rd <= k && *rs <= k,
        Instr::Unpack { rd, v } => *rd <= k && value_within(v, k),
    }
}

fn end_within(end: &End, k: u64) -> bool
    ensures { IsTrue result ↔ EndWithin k (end_tree end.now) }
{
    match end {
        End::Jmp(v) => value_within(v, k),
        End::Halt => true,
    }
}

// A body with its end.
fn code_within(body: &[(Instr, Span)], end: &End, k: u64) -> bool
    ensures { IsTrue result ↔ InSeq k (seq_of (body_trees body.now) (end_tree end.now)) }
{
    for entry in body {
        if !instr_within(&entry.0, k) {
            return false;
        }
    }
    end_within(end, k)
}

fn blocks_within(blocks: &[Block], k: u64) -> bool
    ensures { IsTrue result ↔ InBlocks k (blocks_of blocks.now) }
{
    for block in blocks {
        if !file_within(&block.regs.regs, k) {
            return false;
        }
        if !code_within(&block.body, &block.end, k) {
            return false;
        }
    }
    true
}

fn data_within(fields: &[(Value, TType, Span)], k: u64) -> bool
    ensures { IsTrue result ↔ InData k (plain_fields (data_items fields.now)) }
{
    for field in fields {
        if !value_within(&field.0, k) {
            return false;
        }
        if !type_within(&field.1, k) {
            return false;
        }
    }
    true
}

fn heap_within(heap: &[Data], k: u64) -> bool
    ensures { IsTrue result ↔ InHeap k (data_of heap.now) }
{
    for tuple in heap {
        if !data_within(&tuple.fields, k) {
            return false;
        }
    }
    true
}

/// Whether a program has no register above `k`: in an instruction, in a value of its data, or in a register file at any
/// depth of a type. It takes no memory.
pub fn is_within(program: &TProgram, k: u64) -> bool
    ensures { IsTrue result ↔ RegistersUpTo k (program_tree program.now) }
{
    blocks_within(&program.blocks, k) && heap_within(&program.heap, k)
}
