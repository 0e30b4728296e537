// The parts of values, read one after the other.
ghost use Rattle.std.specs.Prelude.{◌≡◌, ℕ, suc, ◌+◌, ◌-◌, List, [], ◌∷◌, ◌++◌, None, IfOk, OnOk, MatchOption, length};
ghost use Rattle.c_terms.specs.Read.{ctree, ctys};
ghost use Rattle.h_terms.specs.H.{HApply, HPack, HBlks};
ghost use Rattle.h_terms.specs.Nodes.{h_blocks, at_last, tupled, more};
ghost use Rattle.a_terms.specs.Tree as a;
ghost use Rattle.a_terms.specs.Read.{atree, atrees};
ghost use Rattle.a_terms.specs.Typing.{aapply, aset, or_int};
ghost use Rattle.a_terms.specs.NodeTrees as tree;
ghost use Rattle.a_laws.specs.Allocate.{Known, atype, atypes};
ghost use Rattle.a_terms.specs.declared.nodes.AData.{AData};
ghost use Rattle.a_terms.specs.declared.nodes.ANode.{ANode};
ghost use Rattle.a_pass.specs.Scope.{value_at, constant_in, knowns, of_apply, of_pack, scope, type_in, type_of};
ghost use Rattle.a_pass.specs.Scope.{types_in};
ghost use Rattle.a_pass.specs.Emits.{Emits, Reads, inits};

use crate::constants::{all_constants, applied_constant, constant_tuple, packed_constant};
use crate::emit::{after, fill, malloc};
use crate::scope::{int_leaf, kinds_of, label, own, own_all, plain, variable_leaf};
use crate::state::{Around, ConstantOf, Leaf, Name, Run, Seen, TypeOf};
use crate::types::{a_type, a_types};
use a_terms::parts::{apply_all, known};
use a_terms::{ABase, AData, ANode, AType, AValue, AWrap};
use c_terms::CType;
use h_terms::HPart;
use idx_core::OutOfMemory;
use std::alloc::Global;

fn push_leaf<'a>(run: Run<'a>, leaf: Leaf<'a>) -> Result<Run<'a>, OutOfMemory>
    ensures values { IfOk result (λ r. r.values.items ≡ run.entry.values.items ++ leaf.entry.value ∷ []) }
    ensures types { IfOk result (λ r. r.types.items ≡ run.entry.types.items ++ leaf.entry.seen ∷ []) }
    ensures depth { IfOk result (λ r. r.depth ≡ run.entry.depth) }
{
    let mut run = run;
    run.values.push(leaf.value)?;
    run.types.push(leaf.seen)?;
    Ok(run)
}

fn pop_leaf<'a>(run: &mut Run<'a>) -> Option<Leaf<'a>>
    ensures values { MatchOption result ((run.old.values.items ≡ []) × (run.new.values.items ≡ []))
        (λ l. run.old.values.items ≡ run.new.values.items ++ l.value ∷ []) }
    ensures types { MatchOption result ((run.old.types.items ≡ []) × (run.new.types.items ≡ []))
        (λ l. run.old.types.items ≡ run.new.types.items ++ l.seen ∷ []) }
    ensures depth { run.new.depth ≡ run.old.depth }
{
    let Some(value) = run.values.pop() else {
        return None;
    };
    let Some(seen) = run.types.pop() else {
        unreachable!()
    };
    Some(Leaf { value, seen })
}

pub(crate) fn wrap(value: AValue, outside: AWrap) -> Result<AValue, OutOfMemory>
    ensures value { IfOk result (λ r. (d : ℕ) → value_at d r ≡ tree.wrap outside (value_at d value)) }
    ensures whole { IfOk result (λ r. tree.a_value r ≡ tree.wrap outside (tree.a_value value)) }
{
    let AValue { base, wraps } = value;
    let mut wraps = wraps;
    wraps.push(outside)?;
    Ok(AValue { base, wraps })
}

// The type of what is applied to types.
fn applied(alloc: Global, code: AType, ts: &[AType]) -> Result<AType, OutOfMemory>
    ensures { IfOk result (λ r. atree r ≡ or_int (aapply (atree code) (atrees ts.now))) }
{
    let made = apply_all(alloc, Some(code), ts)?;
    Ok(known(made))
}

// The type of what has this one and is applied to types. Where there are none it is the same.
fn applied_kind<'a>(
    around: &Around,
    ty: TypeOf<'a>,
    ts: &[AType],
) -> Result<TypeOf<'a>, OutOfMemory>
    ensures { IfOk result (λ r.
        let g = scope around.now.binders around.now.names.now in
        type_of g r ≡ or_int (aapply (type_of g ty.entry) (atrees ts.now))) }
{
    if ts.len() == 0 {
        return Ok(ty);
    }
    let code = own(around.alloc, around.names, around.binders, &ty)?;
    let made = applied(around.alloc, code, ts)?;
    Ok(TypeOf::Own(made))
}

fn apply_leaf<'a>(around: &Around, ts: &[CType], leaf: Leaf<'a>) -> Result<Leaf<'a>, OutOfMemory>
    ensures value { IfOk result (λ r. (d : ℕ) →
        value_at d r.value ≡ a.Apply (value_at d leaf.entry.value) (atypes (ctys ts.now))) }
    ensures ty { IfOk result (λ r.
        let g = scope around.now.binders around.now.names.now in
        type_in g r.seen ≡ or_int (aapply (type_in g leaf.entry.seen) (atypes (ctys ts.now)))) }
    ensures constant { IfOk result (λ r. (ls : List Known) →
        constant_in ls r.seen ≡ of_apply (atypes (ctys ts.now)) (value_at 0 leaf.entry.value)) }
{
    let Leaf { value, seen } = leaf;
    let args = a_types(around.alloc, ts)?;
    let ty = applied_kind(around, seen.ty, &args)?;
    let constant = applied_constant(around.alloc, &value, &args)?;
    let value = wrap(value, AWrap::Apply(args))?;
    let seen = Seen { ty, constant };
    Ok(Leaf { value, seen })
}

// The newest value is applied to types.
fn apply<'a>(around: &Around, ts: &[CType], run: Run<'a>) -> Result<Run<'a>, OutOfMemory>
    ensures { IfOk result (λ r. (ks : HBlks) (ls : List Known) (out : List ANode) (tuples : List AData) →
        Reads ks (scope around.now.binders around.now.names.now) ls (at_last (λ v. HApply v (ctys ts.now)))
        run.entry.values.items run.entry.types.items run.entry.depth out tuples r.values.items r.types.items r.depth
        out tuples) }
{
    let mut run = run;
    let Some(leaf) = pop_leaf(&mut run) else {
        return Ok(run);
    };
    let leaf = apply_leaf(around, ts, leaf)?;
    let made = push_leaf(run, leaf)?;
    Ok(made)
}

fn pack_leaf<'a>(
    alloc: Global,
    names: &[Name],
    hidden: &CType,
    shape: &'a CType,
    leaf: Leaf<'a>,
) -> Result<Leaf<'a>, OutOfMemory>
    ensures value { IfOk result (λ r. (d : ℕ) → value_at d r.value ≡
        a.Pack (atype (ctree hidden.now)) (value_at d leaf.entry.value) (atype (ctree shape.now))) }
    ensures ty { IfOk result (λ r. (g : List a.ATy) → type_in g r.seen ≡ atype (ctree shape.now)) }
    ensures constant { IfOk result (λ r. constant_in (knowns names.now) r.seen ≡
        of_pack (atype (ctree hidden.now)) (atype (ctree shape.now)) (constant_in (knowns names.now)
        leaf.entry.seen)) }
{
    let Leaf { value, seen } = leaf;
    let constant = packed_constant(alloc, names, seen.constant, hidden, shape)?;
    let ty = TypeOf::Lent(shape);
    let hidden = a_type(alloc, hidden)?;
    let shape = a_type(alloc, shape)?;
    let value = wrap(value, AWrap::Pack { hidden, shape })?;
    let seen = Seen { ty, constant };
    Ok(Leaf { value, seen })
}

// The newest value is packed.
fn pack<'a>(
    alloc: Global,
    names: &[Name],
    hidden: &CType,
    shape: &'a CType,
    run: Run<'a>,
) -> Result<Run<'a>, OutOfMemory>
    ensures { IfOk result (λ r. (ks : HBlks) (g : List a.ATy) (out : List ANode) (tuples : List AData) →
        Reads ks g (knowns names.now) (at_last (λ v. HPack (ctree hidden.now) v (ctree shape.now)))
        run.entry.values.items run.entry.types.items run.entry.depth out tuples r.values.items r.types.items r.depth
        out tuples) }
{
    let mut run = run;
    let Some(leaf) = pop_leaf(&mut run) else {
        return Ok(run);
    };
    let leaf = pack_leaf(alloc, names, hidden, shape, leaf)?;
    let made = push_leaf(run, leaf)?;
    Ok(made)
}

// A tuple of this level that is made and filled, and what is known of it.
fn made_tuple<'a>(
    around: &Around,
    fields: Vec<AValue>,
    seen: Vec<Seen<'a>>,
    depth: u64,
    out: &mut Vec<ANode>,
) -> Result<(Leaf<'a>, u64), OutOfMemory>
    ensures emits { OnOk result ((room : a.ATys) →
        types_in (scope around.now.binders around.now.names.now) seen.entry.items ≡ room → Emits out.old.items
        out.new.items
        (λ r. a.Let (a.Malloc room) (inits depth 1 fields.items r))) }
    ensures level { IfOk result (λ r. r.1 ≡ depth + length fields.items) }
    ensures value { IfOk result (λ r. (e : ℕ) → value_at e r.0.value ≡ a.Var (e - suc r.1)) }
    ensures ty { IfOk result (λ r. (g : List a.ATy) → type_in g r.0.seen ≡ a.ATuple (aset (types_in g
        seen.entry.items))) }
    ensures constant { IfOk result (λ r. (ls : List Known) → constant_in ls r.0.seen ≡ None) }
{
    let kinds = kinds_of(around.alloc, seen)?;
    let room = own_all(around.alloc, around.names, around.binders, &kinds)?;
    malloc(around.alloc, room, out)?;
    let level = fill(around.alloc, fields, depth, out)?;
    let value = plain(around.alloc, ABase::Var(level));
    let seen = Seen {
        ty: TypeOf::Tuple(kinds),
        constant: ConstantOf::Open,
    };
    Ok((Leaf { value, seen }, level))
}

// The newest n values become a tuple: a data tuple where all are constants.
fn tuple<'a>(
    around: &Around,
    n: u64,
    run: Run<'a>,
    tuples: &mut Vec<AData>,
    out: &mut Vec<ANode>,
) -> Result<Run<'a>, OutOfMemory>
    ensures { IfOk result (λ r. (ks : HBlks) →
        Reads ks (scope around.now.binders around.now.names.now) (knowns around.now.names.now) (tupled n)
        run.entry.values.items run.entry.types.items run.entry.depth out.old.items tuples.old.items r.values.items
        r.types.items
        r.depth out.new.items tuples.new.items) }
{
    let mut run = run;
    let count = run.values.len();
    let start = count.saturating_sub(n as usize);
    let fields = run.values.split_off(start)?;
    let seen = run.types.split_off(start)?;
    if all_constants(around.names, &seen) {
        let leaf = constant_tuple(around.alloc, around.names, around.binders, seen, tuples)?;
        let made = push_leaf(run, leaf)?;
        return Ok(made);
    }
    let built = made_tuple(around, fields, seen, run.depth, out)?;
    run.depth = after(built.1)?;
    let made = push_leaf(run, built.0)?;
    Ok(made)
}

// One more part.
pub(crate) fn part<'a>(
    around: &Around<'_, 'a>,
    part: &'a HPart,
    run: Run<'a>,
    tuples: &mut Vec<AData>,
    out: &mut Vec<ANode>,
) -> Result<Run<'a>, OutOfMemory>
    ensures { IfOk result (λ r. Reads (h_blocks around.now.blocks.now)
        (scope around.now.binders around.now.names.now) (knowns around.now.names.now) (more part.now)
        run.entry.values.items run.entry.types.items run.entry.depth out.old.items tuples.old.items r.values.items
        r.types.items
        r.depth out.new.items tuples.new.items) }
{
    match part {
        HPart::Var(i) => {
            let made = push_leaf(run, variable_leaf(around.alloc, around.names, *i))?;
            Ok(made)
        }
        HPart::Int(n) => {
            let made = push_leaf(run, int_leaf(around.alloc, *n))?;
            Ok(made)
        }
        HPart::Label(l) => {
            let made = push_leaf(run, label(around.alloc, around.blocks, *l))?;
            Ok(made)
        }
        HPart::Tuple(n) => tuple(around, *n, run, tuples, out),
        HPart::Apply(ts) => {
            let made = apply(around, ts, run)?;
            Ok(made)
        }
        HPart::Pack { hidden, shape } => {
            let made = pack(around.alloc, around.names, hidden, shape, run)?;
            Ok(made)
        }
    }
}
