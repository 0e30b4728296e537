// Values, whose register's word may stand in another register.
ghost use Rattle.std.specs.Prelude.{◌≡◌, ℕ, IfOk};
ghost use Rattle.t_terms.specs.Read.{value as value_tree, base as base_tree};
ghost use Rattle.t_spill_rules.specs.Spill.{sp_value, sp_base, second_at};
ghost use Rattle.t_spill_code.specs.Onto.{LabelHasNext, HasNext, based};
ghost use Rattle.t_spill_code.specs.Homes.{home_in};

use crate::homes::Homes;
use crate::split::Split;
use crate::types::{spilled_type, spilled_types};
use idx_core::OutOfMemory;
use std::alloc::Global;
use t_terms::{Base, Value};

/// What a value begins with.
#[cycle(bases)]
pub fn base_of(v: &Value) -> Base
    ensures { base_tree result ≡ based (value_tree v.now) }
{
    match v {
        Value::Plain { base, .. } => *base,
        Value::Pack { inner, .. } => base_of(inner),
    }
}

/// A base of data, in which no register is named: a block is one further on.
pub fn moved_base(b: Base) -> Base
    requires { LabelHasNext (base_tree b) }
    ensures { base_tree result ≡ sp_base (λ r. 1) (base_tree b) }
{
    match b {
        Base::Reg(_) => Base::Reg(1),
        Base::Int(i) => Base::Int(i),
        Base::Label(l) => Base::Label(l + 1),
        Base::Data(d) => Base::Data(d),
    }
}

// A base as an operand, after its register was loaded.
fn loaded_base(homes: &Homes, b: Base) -> Base
    requires { LabelHasNext (base_tree b) }
    ensures { base_tree result ≡ sp_base (second_at homes.now.split.low (home_in homes.now)) (base_tree b) }
{
    match b {
        Base::Reg(r) => Base::Reg(homes.second(r)),
        Base::Int(i) => Base::Int(i),
        Base::Label(l) => Base::Label(l + 1),
        Base::Data(d) => Base::Data(d),
    }
}

/// A value that begins with `base`, which is already spilled.
#[cycle(values)]
pub fn spilled_value(
    alloc: Global,
    split: Split,
    v: &Value,
    base: Base,
) -> Result<Value, OutOfMemory>
    ensures { IfOk result (λ r. (at : ℕ → ℕ) → base_tree base ≡ sp_base at (based (value_tree v.now)) →
        value_tree r ≡ sp_value split.low at (value_tree v.now)) }
{
    match v {
        Value::Plain { types, .. } => {
            let types = spilled_types(alloc, split, types)?;
            Ok(Value::Plain { base, types })
        }
        Value::Pack {
            hidden,
            inner,
            shape,
        } => {
            let hidden = spilled_type(alloc, split, hidden)?;
            let shape = spilled_type(alloc, split, shape)?;
            let inner = spilled_value(alloc, split, inner, base)?;
            Ok(Value::Pack {
                hidden: Box::new(alloc, hidden)?,
                inner: Box::new(alloc, inner)?,
                shape: Box::new(alloc, shape)?,
            })
        }
    }
}

/// A value as an operand, after its register was loaded.
pub fn operand(alloc: Global, homes: &Homes, v: &Value) -> Result<Value, OutOfMemory>
    requires { HasNext (value_tree v.now) }
    ensures { IfOk result (λ r. value_tree r
        ≡ sp_value homes.now.split.low (second_at homes.now.split.low (home_in homes.now)) (value_tree v.now)) }
{
    let base = loaded_base(homes, base_of(v));
    let made = spilled_value(alloc, homes.split, v, base)?;
    Ok(made)
}
