// The data of a program.
ghost use Rattle.std.specs.Prelude.{◌≡◌, ◌++◌, IfOk};
ghost use Rattle.t_types.specs.Read.{types as type_trees};
ghost use Rattle.t_terms.specs.Spanned.{plain_fields};
ghost use Rattle.t_terms.specs.Read.{value as value_tree, data_fields, data_of as data_trees};
ghost use Rattle.a_terms.specs.Read.{atrees};
ghost use Rattle.a_terms.specs.NodeTrees.{base as base_tree, a_value, a_consts, a_data};
ghost use Rattle.t_gen_rules.specs.Gen.{tys, applied_to, constant, data_of, generated_heap};
ghost use Rattle.t_emit.specs.Code.{wrap_constant};

use crate::code::{NOWHERE, plain};
use crate::types::{written, written_onto};
use crate::values::after;
use a_terms::{ABase, AData, AType, AValue, AWrap};
use idx_core::{OutOfMemory, Span};
use std::alloc::Global;
use t_terms::{Base, Data, Value};
use t_types::TType;

fn constant_base(alloc: Global, base: ABase) -> Result<Value, OutOfMemory>
    ensures { IfOk result (λ r. value_tree r ≡ constant (base_tree base)) }
{
    match base {
        ABase::Var(_) => Ok(plain(alloc, Base::Reg(0))),
        ABase::Int(i) => Ok(plain(alloc, Base::Int(i))),
        ABase::Label(l) => {
            let block = after(l)?;
            Ok(plain(alloc, Base::Label(block)))
        }
        ABase::Data(n) => Ok(plain(alloc, Base::Data(n))),
    }
}

// A value at once with types: a package takes none.
pub(crate) fn apply_constant(alloc: Global, v: Value, types: &[AType]) -> Result<Value, OutOfMemory>
    ensures { IfOk result (λ r. value_tree r ≡ applied_to (value_tree v) (tys (atrees types.now))) }
{
    match v {
        Value::Plain {
            base,
            types: before,
        } => {
            let types = written_onto(alloc, before, types)?;
            Ok(Value::Plain { base, types })
        }
        Value::Pack {
            hidden,
            inner,
            shape,
        } => Ok(Value::Pack {
            hidden,
            inner,
            shape,
        }),
    }
}

fn constant_wrap(alloc: Global, v: Value, w: &AWrap) -> Result<Value, OutOfMemory>
    ensures { IfOk result (λ r. value_tree r ≡ wrap_constant w.now (value_tree v)) }
{
    match w {
        AWrap::Apply(types) => {
            let made = apply_constant(alloc, v, types)?;
            Ok(made)
        }
        AWrap::Pack { hidden, shape } => {
            let hidden = Box::new(alloc, written(alloc, hidden)?)?;
            let shape = Box::new(alloc, written(alloc, shape)?)?;
            let inner = Box::new(alloc, v)?;
            Ok(Value::Pack {
                hidden,
                inner,
                shape,
            })
        }
    }
}

/// The value of a data field. An error is want of memory.
pub fn constant_value(alloc: Global, v: &AValue) -> Result<Value, OutOfMemory>
    ensures { IfOk result (λ r. value_tree r ≡ constant (a_value v.now)) }
{
    let mut made = constant_base(alloc, v.base)?;
    for w in &v.wraps {
        made = constant_wrap(alloc, made, w)?;
    }
    Ok(made)
}

// The fields of a data tuple.
fn constant_fields(
    alloc: Global,
    consts: &[(AValue, AType)],
) -> Result<Vec<(Value, TType, Span)>, OutOfMemory>
    ensures { IfOk result (λ r. plain_fields (data_fields r.items) ≡ data_of (a_consts consts.now)) }
{
    let mut fields = Vec::with_capacity(alloc, consts.len())?;
    for c in consts {
        let value = constant_value(alloc, &c.0)?;
        let ty = written(alloc, &c.1)?;
        fields.push((value, ty, NOWHERE))?;
    }
    Ok(fields)
}

/// The data tuples of the assembly program, one for each of an allocated program. An error is want of memory.
pub fn all_data(alloc: Global, tuples: &[AData]) -> Result<Vec<Data>, OutOfMemory>
    ensures { IfOk result (λ r. data_trees r.items ≡ generated_heap (a_data tuples.now)) }
{
    let mut made = Vec::with_capacity(alloc, tuples.len())?;
    for tuple in tuples {
        let fields = constant_fields(alloc, &tuple.fields)?;
        made.push(Data {
            name: NOWHERE,
            fields,
        })?;
    }
    Ok(made)
}
