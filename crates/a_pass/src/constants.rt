// The constants of a program, and the data tuples that are made of them.
ghost use Rattle.std.specs.Prelude.{◌≡◌, ℕ, List, Some, None, IfOk, OnOk, MatchOption, option_map, map, length};
ghost use Rattle.std.specs.Prelude.{slice_get, true, false};
ghost use Rattle.c_terms.specs.Read.{ctree};
ghost use Rattle.a_terms.specs.Tree as a;
ghost use Rattle.a_terms.specs.Read.{atree, atrees};
ghost use Rattle.a_terms.specs.NodeTrees as tree;
ghost use Rattle.a_terms.specs.NodeTrees.{a_value, a_consts};
ghost use Rattle.a_terms.specs.Typing.{data_fields};
ghost use Rattle.a_laws.specs.Allocate.{Known, atype, all_closed as the_all_closed, closed, is_pack as the_is_pack};
ghost use Rattle.a_laws.specs.Allocate.{is_some as is_known, named, or_zero};
ghost use Rattle.a_pass.specs.Scope.{value_at, knowns, scope, type_in, constant_of, constant_in};
ghost use Rattle.a_pass.specs.Scope.{all_constants as the_all_constants, field_at, is_bare, of_apply, of_pack};
ghost use Rattle.a_pass.specs.Emits.{Keeps};

use crate::parts::wrap;
use crate::scope::{name_at, own, plain};
use crate::state::{ConstantOf, Leaf, Name, Seen, TypeOf};
use crate::types::a_type;
use a_terms::walks::{copies, copy};
use a_terms::{ABase, AData, AType, AValue, AWrap};
use c_terms::CType;
use idx_core::{OutOfMemory, Scoped};
use std::alloc::Global;

fn copied_wrap(alloc: Global, wrap: &AWrap) -> Result<AWrap, OutOfMemory>
    ensures { IfOk result (λ r. (v : a.AVal) → tree.wrap r v ≡ tree.wrap wrap.now v) }
{
    match wrap {
        AWrap::Apply(types) => {
            let made = copies(alloc, types)?;
            Ok(AWrap::Apply(made))
        }
        AWrap::Pack { hidden, shape } => {
            let hidden = copy(alloc, hidden)?;
            let shape = copy(alloc, shape)?;
            Ok(AWrap::Pack { hidden, shape })
        }
    }
}

fn copied_wraps(alloc: Global, wraps: &[AWrap]) -> Result<Vec<AWrap>, OutOfMemory>
    ensures { IfOk result (λ r. (v : a.AVal) → tree.wrapped v r.items ≡ tree.wrapped v wraps.now) }
{
    let mut made = Vec::with_capacity(alloc, wraps.len())?;
    for wrap in wraps {
        let one = copied_wrap(alloc, wrap)?;
        made.push(one)?;
    }
    Ok(made)
}

fn copied(alloc: Global, value: &AValue) -> Result<AValue, OutOfMemory>
    ensures { IfOk result (λ r. a_value r ≡ a_value value.now) }
{
    let wraps = copied_wraps(alloc, &value.wraps)?;
    Ok(AValue {
        base: value.base,
        wraps,
    })
}

// The constant that name i names.
fn named_constant(alloc: Global, names: &[Name], i: u64) -> Result<Option<AValue>, OutOfMemory>
    ensures { IfOk result (λ r. option_map a_value r ≡ named (slice_get (knowns names.now) i)) }
{
    match name_at(names, i) {
        Some(name) => {
            match &name.constant {
                Some(value) => {
                    let made = copied(alloc, value)?;
                    Ok(Some(made))
                }
                None => Ok(None),
            }
        }
        None => Ok(None),
    }
}

// The value of a constant.
pub(crate) fn constant_value(
    alloc: Global,
    names: &[Name],
    constant: ConstantOf,
) -> Result<Option<AValue>, OutOfMemory>
    ensures { IfOk result (λ r. option_map a_value r ≡ constant_of (knowns names.now) constant) }
{
    match constant {
        ConstantOf::Open => Ok(None),
        ConstantOf::Own(value) => Ok(Some(value)),
        ConstantOf::Name(i) => {
            let made = named_constant(alloc, names, i)?;
            Ok(made)
        }
    }
}

fn names_constant(names: &[Name], i: u64) -> bool
    ensures { result ≡ is_known (named (slice_get (knowns names.now) i)) }
{
    match name_at(names, i) {
        Some(name) => name.constant.is_some(),
        None => false,
    }
}

fn is_constant(names: &[Name], constant: &ConstantOf) -> bool
    ensures { result ≡ is_known (constant_of (knowns names.now) constant.now) }
{
    match constant {
        ConstantOf::Open => false,
        ConstantOf::Own(_) => true,
        ConstantOf::Name(i) => names_constant(names, *i),
    }
}

pub(crate) fn all_constants(names: &[Name], seen: &[Seen]) -> bool
    ensures { result ≡ the_all_constants (knowns names.now) seen.now }
{
    for one in seen {
        if !is_constant(names, &one.constant) {
            return false;
        }
    }
    true
}

fn packs(wrap: &AWrap) -> bool
    ensures yes { result ≡ true → (v : a.AVal) → the_is_pack (tree.wrap wrap.now v) ≡ true }
    ensures other { result ≡ false → (v : a.AVal) → the_is_pack (tree.wrap wrap.now v) ≡ the_is_pack v }
{
    match wrap {
        AWrap::Apply(_) => false,
        AWrap::Pack { .. } => true,
    }
}

fn some_pack(wraps: &[AWrap]) -> bool
    ensures { (v : a.AVal) → the_is_pack v ≡ false → result ≡ the_is_pack (tree.wrapped v wraps.now) }
{
    for wrap in wraps {
        if packs(wrap) {
            return true;
        }
    }
    false
}

fn is_pack(value: &AValue) -> bool
    ensures { result ≡ the_is_pack (a_value value.now) }
{
    some_pack(&value.wraps)
}

fn is_closed(t: &AType) -> bool
    ensures { result ≡ closed 0 (atree t.now) }
{
    t.below(0)
}

fn all_closed(ts: &[AType]) -> bool
    ensures { result ≡ the_all_closed 0 (atrees ts.now) }
{
    for t in ts {
        if !is_closed(t) {
            return false;
        }
    }
    true
}

// The label that a value is, if it is nothing but one.
fn bare_label(value: &AValue) -> Option<u64>
    ensures { MatchOption result (is_bare (value_at 0 value.now) ≡ false) (λ l. value_at 0 value.now ≡ a.Lab l) }
{
    let wraps = value.wraps.as_slice();
    if wraps.len() > 0 {
        return None;
    }
    match value.base {
        ABase::Label(l) => Some(l),
        ABase::Var(_) | ABase::Int(_) | ABase::Data(_) => None,
    }
}

fn applied_label(alloc: Global, l: u64, types: &[AType]) -> Result<AValue, OutOfMemory>
    ensures { IfOk result (λ r. a_value r ≡ a.Apply (a.Lab l) (atrees types.now)) }
{
    let types = copies(alloc, types)?;
    let mut wraps = Vec::with_capacity(alloc, 1)?;
    wraps.push(AWrap::Apply(types))?;
    Ok(AValue {
        base: ABase::Label(l),
        wraps,
    })
}

// The constant that a value is once it is applied to these types.
pub(crate) fn applied_constant(
    alloc: Global,
    value: &AValue,
    types: &[AType],
) -> Result<ConstantOf, OutOfMemory>
    ensures { IfOk result (λ r. (ls : List Known) →
        constant_of ls r ≡ of_apply (atrees types.now) (value_at 0 value.now)) }
{
    let Some(l) = bare_label(value) else {
        return Ok(ConstantOf::Open);
    };
    if !all_closed(types) {
        return Ok(ConstantOf::Open);
    }
    let made = applied_label(alloc, l, types)?;
    Ok(ConstantOf::Own(made))
}

fn packed(inner: AValue, hidden: AType, shape: AType) -> Result<ConstantOf, OutOfMemory>
    ensures { IfOk result (λ r. (ls : List Known) →
        constant_of ls r ≡ of_pack (atree hidden) (atree shape) (Some (a_value inner))) }
{
    if is_pack(&inner) {
        return Ok(ConstantOf::Open);
    }
    if !is_closed(&hidden) {
        return Ok(ConstantOf::Open);
    }
    if !is_closed(&shape) {
        return Ok(ConstantOf::Open);
    }
    let made = wrap(inner, AWrap::Pack { hidden, shape })?;
    Ok(ConstantOf::Own(made))
}

// The same, where the types are still to be made.
fn packed_types(
    alloc: Global,
    inner: AValue,
    hidden: &CType,
    shape: &CType,
) -> Result<ConstantOf, OutOfMemory>
    ensures { IfOk result (λ r. (ls : List Known) →
        constant_of ls r ≡ of_pack (atype (ctree hidden.now)) (atype (ctree shape.now)) (Some (a_value inner))) }
{
    let hidden = a_type(alloc, hidden)?;
    let shape = a_type(alloc, shape)?;
    let made = packed(inner, hidden, shape)?;
    Ok(made)
}

// The constant that a value is once it is packed.
pub(crate) fn packed_constant(
    alloc: Global,
    names: &[Name],
    constant: ConstantOf,
    hidden: &CType,
    shape: &CType,
) -> Result<ConstantOf, OutOfMemory>
    ensures { IfOk result (λ r. constant_of (knowns names.now) r ≡
        of_pack (atype (ctree hidden.now)) (atype (ctree shape.now)) (constant_of (knowns names.now) constant)) }
{
    let value = constant_value(alloc, names, constant)?;
    match value {
        Some(inner) => {
            let made = packed_types(alloc, inner, hidden, shape)?;
            Ok(made)
        }
        None => Ok(ConstantOf::Open),
    }
}

fn or_number(alloc: Global, value: Option<AValue>) -> AValue
    ensures { a_value result ≡ or_zero (option_map a_value value) }
{
    match value {
        Some(v) => v,
        None => plain(alloc, ABase::Int(0)),
    }
}

fn constant_field(
    alloc: Global,
    names: &[Name],
    binders: u64,
    field: Seen,
) -> Result<(AValue, AType), OutOfMemory>
    ensures value { IfOk result (λ r. a_value r.0 ≡ or_zero (constant_in (knowns names.now) field.entry)) }
    ensures kind { IfOk result (λ r. atree r.1 ≡ type_in (scope binders names.now) field.entry) }
{
    let Seen { ty, constant } = field;
    let kind = own(alloc, names, binders, &ty)?;
    let value = constant_value(alloc, names, constant)?;
    let value = or_number(alloc, value);
    Ok((value, kind))
}

fn constant_fields(
    alloc: Global,
    names: &[Name],
    binders: u64,
    fields: Vec<Seen>,
) -> Result<Vec<(AValue, AType)>, OutOfMemory>
    ensures { IfOk result (λ r. a_consts r.items ≡
        map (field_at (scope binders names.now) (knowns names.now)) fields.entry.items) }
{
    let mut made = Vec::with_capacity(alloc, fields.len())?;
    for field in fields {
        let one = constant_field(alloc, names, binders, field)?;
        made.push(one)?;
    }
    Ok(made)
}

// The type of a data tuple of these fields.
fn tuple_type(alloc: Global, fields: &[(AValue, AType)]) -> Result<AType, OutOfMemory>
    ensures { IfOk result (λ r. atree r ≡ a.ATuple (data_fields (a_consts fields.now))) }
{
    let mut made = Vec::with_capacity(alloc, fields.len())?;
    for field in fields {
        let one = copy(alloc, &field.1)?;
        made.push((one, true))?;
    }
    Ok(AType::Tuple(made))
}

// A data tuple of constants, and the value that names it.
pub(crate) fn constant_tuple<'a>(
    alloc: Global,
    names: &[Name],
    binders: u64,
    fields: Vec<Seen>,
    tuples: &mut Vec<AData>,
) -> Result<Leaf<'a>, OutOfMemory>
    ensures keeps { OnOk result (Keeps (scope binders names.now)
        (knowns names.now) fields.entry.items tuples.old.items tuples.new.items) }
    ensures value { IfOk result (λ r. (d : ℕ) → value_at d r.value ≡ a.Data (length tuples.old.items)) }
    ensures constant { IfOk result (λ r. (ls : List Known) →
        constant_in ls r.seen ≡ Some (a.Data (length tuples.old.items))) }
    ensures ty { IfOk result (λ r. (g : List a.ATy) → type_in g r.seen ≡
        a.ATuple (data_fields (map (field_at (scope binders names.now) (knowns names.now)) fields.entry.items))) }
{
    let number = tuples.len() as u64;
    let fields = constant_fields(alloc, names, binders, fields)?;
    let ty = tuple_type(alloc, &fields)?;
    tuples.push(AData { fields })?;
    let seen = Seen {
        ty: TypeOf::Own(ty),
        constant: ConstantOf::Own(plain(alloc, ABase::Data(number))),
    };
    Ok(Leaf {
        value: plain(alloc, ABase::Data(number)),
        seen,
    })
}
