// Nodes that are written.
ghost use Rattle.std.specs.Prelude.{◌≡◌, ℕ, suc, ◌+◌, [], ◌∷◌, IfOk, OnOk, length, map};
ghost use Rattle.a_terms.specs.Tree as a;
ghost use Rattle.a_terms.specs.Read.{atrees};
ghost use Rattle.a_terms.specs.NodeTrees.{a_value};
ghost use Rattle.a_pass.specs.Scope.{value_at};
ghost use Rattle.a_pass.specs.Emits.{Emits, inits};

use a_terms::{ABase, AForm, ANode, AType, AValue};
use idx_core::OutOfMemory;
use std::alloc::Global;

// A value by its level as it stands under so many variables.
pub(crate) fn under(value: AValue, depth: u64) -> AValue
    ensures { a_value result ≡ value_at depth value }
{
    let AValue { base, wraps } = value;
    let base = match base {
        ABase::Var(level) => ABase::Var(depth.saturating_sub(level).saturating_sub(1)),
        ABase::Int(n) => ABase::Int(n),
        ABase::Label(l) => ABase::Label(l),
        ABase::Data(n) => ABase::Data(n),
    };
    AValue { base, wraps }
}

// Values by level as they stand under so many variables.
pub(crate) fn under_all(
    alloc: Global,
    values: Vec<AValue>,
    depth: u64,
) -> Result<Vec<AValue>, OutOfMemory>
    ensures { IfOk result (λ r. map a_value r.items ≡ map (value_at depth) values.items) }
{
    let mut made = Vec::with_capacity(alloc, values.len())?;
    for value in values {
        made.push(under(value, depth))?;
    }
    Ok(made)
}

// The next number. No program has as many variables or names as would pass 64 bits.
pub(crate) fn after(n: u64) -> Result<u64, OutOfMemory>
    ensures { IfOk result (λ r. r ≡ suc n) }
{
    match n.checked_add(1) {
        Some(m) => Ok(m),
        None => Err(OutOfMemory),
    }
}

// The newest variable, and a value for a field of it.
pub(crate) fn content(alloc: Global, value: AValue, depth: u64) -> Result<Vec<AValue>, OutOfMemory>
    ensures { IfOk result (λ r. map a_value r.items ≡ a.Var 0 ∷ value_at depth value ∷ []) }
{
    let mut values = Vec::with_capacity(alloc, 2)?;
    values.push(AValue {
        base: ABase::Var(0),
        wraps: Vec::new(alloc),
    })?;
    values.push(under(value, depth))?;
    Ok(values)
}

pub(crate) fn malloc(
    alloc: Global,
    types: Vec<AType>,
    out: &mut Vec<ANode>,
) -> Result<(), OutOfMemory>
    ensures { OnOk result (Emits out.old.items out.new.items (λ r. a.Let (a.Malloc (atrees types.items)) r)) }
{
    out.push(ANode {
        form: AForm::Malloc(types),
        values: Vec::new(alloc),
    })?;
    Ok(())
}

// The newest variable's field is initialised.
pub(crate) fn init(
    alloc: Global,
    field: u64,
    value: AValue,
    depth: u64,
    out: &mut Vec<ANode>,
) -> Result<(), OutOfMemory>
    ensures { OnOk result (Emits out.old.items out.new.items
        (λ r. a.Let (a.Init (a.Var 0) field (value_at depth value)) r)) }
{
    let values = content(alloc, value, depth)?;
    out.push(ANode {
        form: AForm::Init(field),
        values,
    })?;
    Ok(())
}

// All fields of the newest variable, a tuple of this level, are initialised in order; its last level.
pub(crate) fn fill(
    alloc: Global,
    fields: Vec<AValue>,
    level: u64,
    out: &mut Vec<ANode>,
) -> Result<u64, OutOfMemory>
    ensures level { IfOk result (λ r. r ≡ level + length fields.items) }
    ensures emits { OnOk result (Emits out.old.items out.new.items (inits level 1 fields.items)) }
{
    let mut newest = level;
    let mut field: u64 = 1;
    for value in fields {
        let depth = after(newest)?;
        init(alloc, field, value, depth, out)?;
        field = after(field)?;
        newest = depth;
    }
    Ok(newest)
}
