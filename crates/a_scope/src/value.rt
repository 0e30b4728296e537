// The types of values.
ghost use Rattle.std.specs.Prelude.{◌≡◌, ◌≤◌, List, Some, IfOk, MatchOption, length, slice_get};
ghost use Rattle.a_terms.specs.Tree.{ATuple, AProg, ATy};
ghost use Rattle.a_terms.specs.Typing.{type_of, code_type, data_fields, data_type};
ghost use Rattle.a_terms.specs.Read.{atree, maybe};
ghost use Rattle.a_terms.specs.NodeTrees.{base as base_tree, a_value, a_values, a_blocks, a_consts, a_data, no_value};
ghost use Rattle.a_terms.specs.Program.{program_in};
ghost use Rattle.calc_core.specs.Row.{top, others};
ghost use Rattle.a_scope.specs.Scope.{scope, wrap_type};

use crate::scope::{Entry, show};
use a_terms::parts::apply_all;
use a_terms::walks::{copies, copy};
use a_terms::{ABase, ABlock, AData, AProgram, AType, AValue, AWrap};
use idx_core::OutOfMemory;
use std::alloc::Global;

fn variable(alloc: Global, vars: &[Entry], names: u64, n: u64) -> Result<Option<AType>, OutOfMemory>
    ensures { IfOk result (λ r. maybe r ≡ slice_get (scope names vars.now) n) }
{
    let count = vars.len();
    if n < count as u64 {
        let made = show(alloc, &vars[count - 1 - n as usize], names)?;
        Ok(Some(made))
    } else {
        Ok(None)
    }
}

fn label(alloc: Global, blocks: &[ABlock], l: u64) -> Result<Option<AType>, OutOfMemory>
    ensures { IfOk result (λ r. maybe r ≡ code_type (slice_get (a_blocks blocks.now) l)) }
{
    if l < blocks.len() as u64 {
        let block = &blocks[l as usize];
        let args = copies(alloc, &block.args)?;
        Ok(Some(AType::Code {
            owes: block.owes,
            args,
        }))
    } else {
        Ok(None)
    }
}

// The type of a data tuple: all its fields are initialised.
fn full_tuple(alloc: Global, consts: &[(AValue, AType)]) -> Result<AType, OutOfMemory>
    ensures { IfOk result (λ r. atree r ≡ ATuple (data_fields (a_consts consts.now))) }
{
    let mut fields = Vec::with_capacity(alloc, consts.len())?;
    for c in consts {
        let one = copy(alloc, &c.1)?;
        fields.push((one, true))?;
    }
    Ok(AType::Tuple(fields))
}

fn datum(alloc: Global, tuples: &[AData], n: u64) -> Result<Option<AType>, OutOfMemory>
    ensures { IfOk result (λ r. maybe r ≡ data_type (slice_get (a_data tuples.now) n)) }
{
    if n < tuples.len() as u64 {
        let tuple = &tuples[n as usize];
        let made = full_tuple(alloc, &tuple.fields)?;
        Ok(Some(made))
    } else {
        Ok(None)
    }
}

fn type_of_base(
    alloc: Global,
    program: &AProgram,
    vars: &[Entry],
    names: u64,
    base: ABase,
) -> Result<Option<AType>, OutOfMemory>
    ensures { IfOk result (λ r. maybe r ≡ type_of (program_in program.now) (scope names vars.now) (base_tree base)) }
{
    match base {
        ABase::Var(n) => {
            let made = variable(alloc, vars, names, n)?;
            Ok(made)
        }
        ABase::Int(_) => Ok(Some(AType::Int)),
        ABase::Label(l) => {
            let made = label(alloc, program.blocks(), l)?;
            Ok(made)
        }
        ABase::Data(n) => {
            let made = datum(alloc, program.data(), n)?;
            Ok(made)
        }
    }
}

fn type_of_wrap(alloc: Global, ty: Option<AType>, w: &AWrap) -> Result<Option<AType>, OutOfMemory>
    ensures { IfOk result (λ r. maybe r ≡ wrap_type w.now (maybe ty)) }
{
    match w {
        AWrap::Apply(types) => {
            let made = apply_all(alloc, ty, types)?;
            Ok(made)
        }
        AWrap::Pack { hidden: _, shape } => {
            let made = copy(alloc, shape)?;
            Ok(Some(made))
        }
    }
}

// The shape of a value that is a package.
pub(crate) fn packed(v: &AValue) -> Option<&AType>
    ensures { MatchOption result (Unit {0}) (λ s. (p : AProg) (g : List ATy)
        → Some (atree s.now) ≡ type_of p g (a_value v.now)) }
{
    let wraps = v.wraps.as_slice();
    let count = wraps.len();
    if count == 0 {
        return None;
    }
    match &wraps[count - 1] {
        AWrap::Pack { hidden: _, shape } => Some(shape),
        AWrap::Apply(_) => None,
    }
}

fn type_of_wrapped(
    alloc: Global,
    program: &AProgram,
    vars: &[Entry],
    names: u64,
    v: &AValue,
) -> Result<Option<AType>, OutOfMemory>
    ensures { IfOk result (λ r. maybe r ≡ type_of (program_in program.now) (scope names vars.now) (a_value v.now)) }
{
    let mut made = type_of_base(alloc, program, vars, names, v.base)?;
    for w in &v.wraps {
        made = type_of_wrap(alloc, made, w)?;
    }
    Ok(made)
}

/// The type of a value. That of a package is read off the package, and not off what is in it. An error is want of
/// memory.
pub fn type_of_value(
    alloc: Global,
    program: &AProgram,
    vars: &[Entry],
    names: u64,
    v: &AValue,
) -> Result<Option<AType>, OutOfMemory>
    ensures { IfOk result (λ r. maybe r ≡ type_of (program_in program.now) (scope names vars.now) (a_value v.now)) }
{
    match packed(v) {
        Some(shape) => {
            let made = copy(alloc, shape)?;
            Ok(Some(made))
        }
        None => {
            let made = type_of_wrapped(alloc, program, vars, names, v)?;
            Ok(made)
        }
    }
}

/// The first value.
pub fn first(values: &[AValue]) -> &AValue
    requires { 1 ≤ length values.now }
    ensures { a_value result.now ≡ top no_value (a_values values.now) }
{
    &values[0]
}

/// The second value.
pub fn second(values: &[AValue]) -> &AValue
    requires { 2 ≤ length values.now }
    ensures { a_value result.now ≡ top no_value (others (a_values values.now)) }
{
    &values[1]
}
