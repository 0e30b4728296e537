// The types of labels, each numbered once.
ghost use Rattle.std.specs.Prelude.{◌≡◌, ◌<◌, length, map, IfOk};
ghost use Rattle.std.specs.List.{All};
ghost use Rattle.t_types.specs.Tree.{TupleTy};
ghost use Rattle.t_terms.specs.Read.{data_fields as data_of};
ghost use Rattle.t_terms.specs.Spanned.{plain_fields};
ghost use Rattle.t_terms.specs.Labels.{data_type};
ghost use Rattle.t_intern.specs.Grown.{Grown, IsNumber, AreNumbers};
ghost use Rattle.t_intern.specs.Spread.{types_at};
ghost use Rattle.t_types.specs.Fields.{all_flagged};
ghost use Rattle.t_known.specs.Labels.{code_types, tuple_types, field_types, AreLabels};

use crate::parts::intern;
use idx_core::{OutOfMemory, Span};
use std::alloc::Global;
use t_intern::{Shape, Types};
use t_terms::{Block, Data, TProgram, Value};
use t_types::TType;

/// The number of the type of integers, and those of the types of a program's blocks and of its data tuples, in their
/// order.
#[derive(Drop)]
pub struct Labels {
    pub int: u64,
    pub blocks: Vec<u64>,
    pub tuples: Vec<u64>,
}

impl Labels {
    /// Those of a program, each put into the table of its types where it is not there.
    pub fn of_program(
        alloc: Global,
        types: &mut Types,
        program: &TProgram,
    ) -> Result<Labels, OutOfMemory>
        ensures grown { Grown types.old types.new }
        ensures labels { IfOk result (AreLabels types.new program.now) }
    {
        let int = intern(types, Shape::Int)?;
        let blocks = number_blocks(alloc, types, &program.blocks)?;
        let tuples = number_heap(alloc, types, &program.heap)?;
        Ok(Labels {
            int,
            blocks,
            tuples,
        })
    }
}

// A block's label is code that owes what the block owes.
fn number_blocks(
    alloc: Global,
    types: &mut Types,
    blocks: &[Block],
) -> Result<Vec<u64>, OutOfMemory>
    ensures grown { Grown types.old types.new }
    ensures numbers { IfOk result (λ v. AreNumbers types.new (code_types blocks.now) v.items) }
{
    let mut made = Vec::new(alloc);
    for block in blocks {
        let n = types.number_code(block.owes, &block.regs.regs)?;
        made.push(n)?;
    }
    Ok(made)
}

// A data label is a tuple of the types that are written for its fields, all of them initialised.
fn number_heap(alloc: Global, types: &mut Types, heap: &[Data]) -> Result<Vec<u64>, OutOfMemory>
    ensures grown { Grown types.old types.new }
    ensures numbers { IfOk result (λ v. AreNumbers types.new (tuple_types heap.now) v.items) }
{
    let mut made = Vec::new(alloc);
    for tuple in heap {
        let n = number_tuple(alloc, types, &tuple.fields)?;
        made.push(n)?;
    }
    Ok(made)
}

fn number_tuple(
    alloc: Global,
    types: &mut Types,
    fields: &[(Value, TType, Span)],
) -> Result<u64, OutOfMemory>
    ensures grown { Grown types.old types.new }
    ensures number { IfOk result (IsNumber types.new (data_type (plain_fields (data_of fields.now)))) }
{
    let numbers = number_fields(alloc, types, fields)?;
    tuple_of(alloc, types, &numbers, true)
}

fn number_fields(
    alloc: Global,
    types: &mut Types,
    fields: &[(Value, TType, Span)],
) -> Result<Vec<u64>, OutOfMemory>
    ensures grown { Grown types.old types.new }
    ensures numbers { IfOk result (λ v. AreNumbers types.new (field_types fields.now) v.items) }
{
    let mut made = Vec::new(alloc);
    for field in fields {
        let n = types.number(&field.1)?;
        made.push(n)?;
    }
    Ok(made)
}

/// The number of the type of a tuple whose fields have the types of these numbers, each with this flag.
pub fn tuple_of(
    alloc: Global,
    types: &mut Types,
    numbers: &[u64],
    flag: bool,
) -> Result<u64, OutOfMemory>
    requires { All (λ n. n < length types.old) numbers.now }
    ensures grown { Grown types.old types.new }
    ensures number { IfOk result (IsNumber types.new (TupleTy (all_flagged flag (types_at types.old numbers.now)))) }
{
    let fields = flagged(alloc, numbers, flag)?;
    intern(types, Shape::Tuple(fields))
}

fn flagged(alloc: Global, numbers: &[u64], flag: bool) -> Result<Vec<(u64, bool)>, OutOfMemory>
    ensures { IfOk result (λ v. v.items ≡ map (λ n. (n, flag)) numbers.now) }
{
    let fields = numbers.iter().map(|n| (*n, flag)).collect(alloc)?;
    Ok(fields)
}
