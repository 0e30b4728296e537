// That the integers of a program have 64 bits. Whoever reads one knows that of it, so these walks read each.
ghost use Rattle.t_terms.specs.Read.{base as base_tree, value, instr, end_of, body as body_tree, block as block_tree};
ghost use Rattle.t_terms.specs.Read.{blocks_of, data_fields, data_of};
ghost use Rattle.t_terms.specs.Spanned.{seq_of, plain_fields};
ghost use Rattle.t_terms.specs.Values.{InstrValues, EndValues, SeqValues, BlocksValues, DataValues, HeapValues};
ghost use Rattle.t_terms.specs.Whole.{BaseFits, ValueFits};

use crate::block::Block;
use crate::data::Data;
use crate::instr::{End, Instr};
use crate::value::{Base, Value};
use idx_core::Span;
use t_types::TType;

fn base_fits(base: &Base)
    ensures { BaseFits (base_tree base.now) }
{
    if let Base::Int(i) = base {
        let _read = *i;
    }
}

fn value_fits(v: &Value)
    ensures { ValueFits (value v.now) }
{
    match v {
        Value::Plain { base, types: _ } => base_fits(base),
        Value::Pack {
            hidden: _,
            inner,
            shape: _,
        } => value_fits(inner),
    }
}

fn instr_fits(i: &Instr)
    ensures { InstrValues ValueFits (instr i.now) }
{
    match i {
        Instr::Arith {
            op: _,
            rd: _,
            rs: _,
            v,
        } => value_fits(v),
        Instr::Bnz { r: _, v } => value_fits(v),
        Instr::Mov { rd: _, v } => value_fits(v),
        Instr::Unpack { rd: _, v } => value_fits(v),
        _ => (),
    }
}

fn end_fits(e: &End)
    ensures { EndValues ValueFits (end_of e.now) }
{
    match e {
        End::Jmp(v) => value_fits(v),
        End::Halt => (),
    }
}

fn body_fits(body: &[(Instr, Span)], end: &End)
    ensures { SeqValues ValueFits (seq_of (body_tree body.now) (end_of end.now)) }
{
    for entry in body {
        instr_fits(&entry.0);
    }
    end_fits(end);
}

pub(crate) fn blocks_fit(blocks: &[Block])
    ensures { BlocksValues ValueFits (blocks_of blocks.now) }
{
    for block in blocks {
        body_fits(&block.body, &block.end);
    }
}

fn fields_fit(fields: &[(Value, TType, Span)])
    ensures { DataValues ValueFits (plain_fields (data_fields fields.now)) }
{
    for field in fields {
        value_fits(&field.0);
    }
}

pub(crate) fn heap_fits(heap: &[Data])
    ensures { HeapValues ValueFits (data_of heap.now) }
{
    for tuple in heap {
        fields_fit(&tuple.fields);
    }
}
