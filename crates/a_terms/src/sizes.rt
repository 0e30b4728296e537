// How many names and registers a program needs at most.
ghost use Rattle.std.specs.Prelude.{◌≡◌, ◌+◌, IfOk, OnOk};
ghost use Rattle.a_terms.specs.Sizes.{bulk as the_bulk, bulk_types as the_bulk_types, bulk_fields as the_bulk_fields};
ghost use Rattle.a_terms.specs.Sizes.{bulk_sum as the_bulk_sum, value_weight as the_value_weight};
ghost use Rattle.a_terms.specs.Sizes.{values_weight as the_values_weight, Fits-in};
ghost use Rattle.a_terms.specs.Weights.{form_size as the_form_size, node_size as the_node_size};
ghost use Rattle.a_terms.specs.Weights.{nodes_size as the_nodes_size, wrap_weight as the_wrap_weight};
ghost use Rattle.a_terms.specs.Weights.{wraps_weight as the_wraps_weight, label_size, body_size};
ghost use Rattle.a_terms.specs.Weights.{blocks_size as the_blocks_size, fields_size as the_fields_size};
ghost use Rattle.a_terms.specs.Weights.{data_size as the_data_size};
ghost use Rattle.a_terms.specs.Read.{atree, atrees, afields};
ghost use Rattle.a_terms.specs.NodeTrees.{a_value, a_values, a_prog, a_tree};

use crate::nodes::{ABlock, AData, AForm, ANode, AValue, AWrap};
use crate::types::AType;
use crate::walks::sum;
use idx_core::OutOfMemory;

#[cycle(bulk)]
fn bulk(t: &AType) -> Result<u64, OutOfMemory>
    ensures { IfOk result (λ r. r ≡ the_bulk (atree t.now)) }
{
    match t {
        AType::Int => Ok(0),
        AType::Var(_) => Ok(0),
        AType::Tuple(fields) => {
            let n = bulk_fields(fields)?;
            Ok(n)
        }
        AType::Code { owes, args } => {
            let args = args.as_slice();
            let most = bulk_types(args)?;
            let n = sum(args.len() as u64, most)?;
            let all = sum(*owes, n)?;
            Ok(all)
        }
        AType::Exists(body) => {
            let n = bulk(body)?;
            let more = sum(n, 1)?;
            Ok(more)
        }
    }
}

#[cycle(bulk)]
fn bulk_types(ts: &[AType]) -> Result<u64, OutOfMemory>
    ensures { IfOk result (λ r. r ≡ the_bulk_types (atrees ts.now)) }
{
    let mut most: u64 = 0;
    for t in ts {
        most = most.max(bulk(t)?);
    }
    Ok(most)
}

#[cycle(bulk)]
fn bulk_fields(fields: &[(AType, bool)]) -> Result<u64, OutOfMemory>
    ensures { IfOk result (λ r. r ≡ the_bulk_fields (afields fields.now)) }
{
    let mut most: u64 = 0;
    for field in fields {
        most = most.max(bulk(&field.0)?);
    }
    Ok(most)
}

fn bulk_sum(ts: &[AType]) -> Result<u64, OutOfMemory>
    ensures { IfOk result (λ r. r ≡ the_bulk_sum (atrees ts.now)) }
{
    let mut total: u64 = 0;
    for t in ts {
        let n = bulk(t)?;
        total = sum(total, n)?;
    }
    Ok(total)
}

fn wrap_weight(w: &AWrap) -> Result<u64, OutOfMemory>
    ensures { IfOk result (λ r. r ≡ the_wrap_weight w.now) }
{
    match w {
        AWrap::Apply(types) => {
            let n = bulk_sum(types)?;
            Ok(n)
        }
        AWrap::Pack { hidden, shape } => {
            let inner = bulk(hidden)?;
            let outer = bulk(shape)?;
            let n = sum(inner, outer)?;
            Ok(n)
        }
    }
}

fn wraps_weight(ws: &[AWrap]) -> Result<u64, OutOfMemory>
    ensures { IfOk result (λ r. r ≡ the_wraps_weight ws.now) }
{
    let mut total: u64 = 0;
    for w in ws {
        let n = wrap_weight(w)?;
        total = sum(total, n)?;
    }
    Ok(total)
}

fn value_weight(v: &AValue) -> Result<u64, OutOfMemory>
    ensures { IfOk result (λ r. r ≡ the_value_weight (a_value v.now)) }
{
    let n = wraps_weight(&v.wraps)?;
    Ok(n)
}

fn values_weight(vs: &[AValue]) -> Result<u64, OutOfMemory>
    ensures { IfOk result (λ r. r ≡ the_values_weight (a_values vs.now)) }
{
    let mut total: u64 = 0;
    for v in vs {
        let n = value_weight(v)?;
        total = sum(total, n)?;
    }
    Ok(total)
}

fn form_size(form: &AForm) -> Result<u64, OutOfMemory>
    ensures { IfOk result (λ r. r ≡ the_form_size form.now) }
{
    match form {
        AForm::Proj(i) => {
            let n = sum(*i, 7)?;
            Ok(n)
        }
        AForm::Init(i) => {
            let n = sum(*i, 7)?;
            Ok(n)
        }
        AForm::Malloc(types) => {
            let most = bulk_types(types)?;
            let n = sum(most, 7)?;
            Ok(n)
        }
        AForm::Call(types) => {
            let most = bulk_types(types)?;
            let n = sum(most, 7)?;
            Ok(n)
        }
        AForm::Value => Ok(7),
        AForm::Arith(_) => Ok(7),
        AForm::Unpack => Ok(7),
        AForm::If0 => Ok(7),
        AForm::Halt => Ok(7),
    }
}

fn node_size(node: &ANode) -> Result<u64, OutOfMemory>
    ensures { IfOk result (λ r. r ≡ the_node_size node.now) }
{
    let values = node.values.as_slice();
    let count = values.len() as u64;
    let form = form_size(&node.form)?;
    let types = values_weight(values)?;
    let twice = sum(count, count)?;
    let more = sum(twice, types)?;
    let all = sum(form, more)?;
    Ok(all)
}

fn nodes_size(nodes: &[ANode]) -> Result<u64, OutOfMemory>
    ensures { IfOk result (λ r. r ≡ the_nodes_size nodes.now) }
{
    let mut total: u64 = 0;
    for node in nodes {
        let n = node_size(node)?;
        total = sum(total, n)?;
    }
    Ok(total)
}

fn block_size(block: &ABlock) -> Result<u64, OutOfMemory>
    ensures { IfOk result (λ r. r ≡ label_size block.now + body_size block.now) }
{
    let args = block.args.as_slice();
    let most = bulk_types(args)?;
    let types = sum(args.len() as u64, most)?;
    let label = sum(block.owes, types)?;
    let nodes = nodes_size(&block.body)?;
    let term = sum(nodes, 2)?;
    let body = sum(block.owes, term)?;
    let all = sum(label, body)?;
    Ok(all)
}

fn blocks_size(blocks: &[ABlock]) -> Result<u64, OutOfMemory>
    ensures { IfOk result (λ r. r ≡ the_blocks_size blocks.now) }
{
    let mut total: u64 = 0;
    for block in blocks {
        let n = block_size(block)?;
        total = sum(total, n)?;
    }
    Ok(total)
}

fn field_size(field: &(AValue, AType)) -> Result<u64, OutOfMemory>
    ensures { IfOk result (λ r. r ≡ the_bulk (atree field.now.1) + the_value_weight (a_value field.now.0)) }
{
    let kind = bulk(&field.1)?;
    let value = value_weight(&field.0)?;
    let n = sum(kind, value)?;
    Ok(n)
}

fn fields_size(fields: &[(AValue, AType)]) -> Result<u64, OutOfMemory>
    ensures { IfOk result (λ r. r ≡ the_fields_size fields.now) }
{
    let mut total: u64 = 0;
    for field in fields {
        let n = field_size(field)?;
        total = sum(total, n)?;
    }
    Ok(total)
}

fn data_size(tuples: &[AData]) -> Result<u64, OutOfMemory>
    ensures { IfOk result (λ r. r ≡ the_data_size tuples.now) }
{
    let mut total: u64 = 0;
    for tuple in tuples {
        let n = fields_size(&tuple.fields)?;
        total = sum(total, n)?;
    }
    Ok(total)
}

/// That a program of these parts needs no more names and registers than the assembly language has. One that needs
/// more is larger than any memory, so the answer is then want of memory.
pub fn keeps_bound(blocks: &[ABlock], main: &[ANode], tuples: &[AData]) -> Result<(), OutOfMemory>
    ensures { OnOk result (Fits-in 4611686018427387904 (a_prog blocks.now tuples.now) (a_tree main.now)) }
{
    let all = blocks_size(blocks)?;
    let kept = data_size(tuples)?;
    let nodes = nodes_size(main)?;
    let term = sum(nodes, 2)?;
    let program = sum(all, kept)?;
    let total = sum(program, term)?;
    if total <= 4_611_686_018_427_387_904 {
        Ok(())
    } else {
        Err(OutOfMemory)
    }
}
