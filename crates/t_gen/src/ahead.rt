// What code generation asks of the terms that are still to come.
ghost use Rattle.std.specs.Prelude.{◌≡◌, ◌≤◌, ◌+◌, [], ◌∷◌, ◌||◌, ◌&&◌, not, List, ℕ, suc, true, length, IfOk, OnOk};
ghost use Rattle.a_terms.specs.Tree.{ATm};
ghost use Rattle.a_terms.specs.NodeTrees.{a_value, a_values, a_decl, a_let, a_build, a_onto, a_tree, is_decl};
ghost use Rattle.a_terms.specs.NodeTrees.{no_value, no_term};
ghost use Rattle.a_terms.specs.Tree.{Call, If0, Halt};
ghost use Rattle.a_terms.specs.Arity.{AArity, ARow, a_kids};
ghost use Rattle.calc_core.specs.Row.{IsOne, IsSome, top, others};
ghost use Rattle.t_gen_rules.specs.Gen.{used, uses, uses_any};
ghost use Rattle.t_gen.specs.Uses.{has, mem, Ending, both_used, both_names, newest, AllHold, Holds, Leads, Listed};
ghost use Rattle.t_gen.specs.Uses.{Tells};
ghost use Rattle.t_gen.specs.Uses.{Told, back};

use crate::told::{Ahead, Wants};
use crate::used::{Used, add_all, has_number, list, missing, missing_of, none, note_all, outside};
use crate::wants::{last_wanted, leave, of_call, of_halt};
use a_terms::{ABase, AForm, ANode, AValue};
use idx_core::{OutOfMemory, sum};
use std::alloc::Global;

/// Of a term: the variables that it uses, and where its end wants them.
#[derive(Drop)]
pub struct Rest {
    pub used: Used,
    pub wants: Wants,
}

/// What code generation asks of a row of nodes: of what comes after each of them, the last one first, and which
/// variables the row's first term uses, in ascending order.
#[derive(Drop)]
pub struct Aheads {
    pub each: Vec<Ahead>,
    pub first: Vec<u64>,
}

// Of a value that gets one more name: whether the rest, which uses these, uses both.
fn both_of(rest: &Used, v: &AValue) -> Result<bool, OutOfMemory>
    ensures { IfOk result (λ r. (e : ATm) → Holds rest.now e → r ≡ both_used (a_value v.now) e) }
{
    let wraps = v.wraps.as_slice();
    if wraps.len() > 0 {
        return Ok(false);
    }
    match v.base {
        ABase::Var(n) => {
            let inner = sum(n, 1)?;
            let old = has_number(rest, inner)?;
            let new = has_number(rest, 0)?;
            Ok(old && new)
        }
        ABase::Int(_) => Ok(false),
        ABase::Label(_) => Ok(false),
        ABase::Data(_) => Ok(false),
    }
}

// The same of a declaration.
fn both(rest: &Used, form: &AForm, values: &[AValue]) -> Result<bool, OutOfMemory>
    requires form { is_decl form.now ≡ true }
    requires arity { AArity form.now (a_values values.now) }
    ensures { IfOk result (λ r. (e : ATm) → Holds rest.now e
        → r ≡ both_names (a_decl form.now (a_values values.now)) e) }
{
    match form {
        AForm::Value => Ok(both_of(rest, first(values))?),
        AForm::Init(_) => Ok(both_of(rest, first(values))?),
        AForm::Proj(_) => Ok(false),
        AForm::Arith(_) => Ok(false),
        AForm::Unpack => Ok(false),
        AForm::Malloc(_) => Ok(false),
        _ => unreachable!(),
    }
}

// The first value.
fn first(values: &[AValue]) -> &AValue
    requires { 1 ≤ length values.now }
    ensures { a_value result.now ≡ top no_value (a_values values.now) }
{
    &values[0]
}

// Of a declaration, where these are of the terms so far.
fn before_let(
    alloc: Global,
    sets: &mut Vec<Rest>,
    form: &AForm,
    values: &[AValue],
) -> Result<Ahead, OutOfMemory>
    requires form { is_decl form.now ≡ true }
    requires arity { AArity form.now (a_values values.now) }
    requires some { 1 ≤ length sets.old.items }
    ensures told { IfOk result (λ w. (ts : List ATm) → AllHold (newest sets.old.items) ts
        → Ending (a_decl form.now (a_values values.now)) (top no_term ts) w
        × AllHold (newest sets.new.items) (a_let (a_decl form.now (a_values values.now)) ts)) }
    ensures count { OnOk result (length sets.new.items ≡ length sets.old.items) }
{
    let Some(rest) = sets.pop() else {
        unreachable!()
    };
    let Rest {
        mut used,
        mut wants,
    } = rest;
    let wanted = last_wanted(&wants);
    let arguments = wants.arguments;
    leave(&mut wants)?;
    let named = both(&used, form, values)?;
    let new = has_number(&used, 0)?;
    outside(&mut used)?;
    let mut gone = Vec::new(alloc);
    missing(&mut gone, &used, values)?;
    note_all(&mut used, values)?;
    sets.push(Rest { used, wants })?;
    Ok(Ahead {
        both: named,
        new,
        gone,
        wanted,
        arguments,
        third: Vec::new(alloc),
    })
}

// Of an end, which wants its variables there.
fn before_end(
    alloc: Global,
    sets: &mut Vec<Rest>,
    values: &[AValue],
    wants: Wants,
) -> Result<Ahead, OutOfMemory>
    ensures told { OnOk result ((ts : List ATm) (e : ATm) → ((n : ℕ) → used e n ≡ uses_any (a_values values.now) n)
        → Leads wants e → AllHold (newest sets.old.items) ts → AllHold (newest sets.new.items) (e ∷ ts)) }
    ensures count { OnOk result (length sets.new.items ≡ suc (length sets.old.items)) }
{
    let mut own = none(alloc);
    note_all(&mut own, values)?;
    sets.push(Rest { used: own, wants })?;
    Ok(Ahead {
        both: false,
        new: false,
        gone: Vec::new(alloc),
        wanted: 0,
        arguments: 0,
        third: Vec::new(alloc),
    })
}

// Of a choice.
fn before_if(alloc: Global, sets: &mut Vec<Rest>, values: &[AValue]) -> Result<Ahead, OutOfMemory>
    requires arity { IsOne (a_values values.now) }
    requires two { 2 ≤ length sets.old.items }
    ensures told { IfOk result (λ w. (ts : List ATm) → AllHold (newest sets.old.items) ts
        → (Listed (used (top no_term (others ts))) 0 w.third.items
        × ((i : ℕ) → mem w.gone.items i ≡ ((uses (top no_value (a_values values.now)) i
        || used (top no_term (others ts)) i) && not (used (top no_term ts) i))))
        × AllHold (newest sets.new.items) (If0 (top no_value (a_values values.now)) (top no_term ts)
        (top no_term (others ts)) ∷ others (others ts))) }
    ensures count { OnOk result (suc (length sets.new.items) ≡ length sets.old.items) }
{
    let Some(second) = sets.pop() else {
        unreachable!()
    };
    let Rest { mut used, wants } = second;
    let Some(other) = sets.pop() else {
        unreachable!()
    };
    let third = list(alloc, other.used)?;
    let mut gone = Vec::new(alloc);
    missing(&mut gone, &used, values)?;
    missing_of(&mut gone, &used, &third)?;
    add_all(&mut used, &third)?;
    note_all(&mut used, values)?;
    sets.push(Rest { used, wants })?;
    Ok(Ahead {
        both: false,
        new: false,
        gone,
        wanted: 0,
        arguments: 0,
        third,
    })
}

// Whether a node is a declaration.
fn declares(form: &AForm) -> bool
    ensures { result ≡ is_decl form.now }
{
    match form {
        AForm::Value => true,
        AForm::Proj(_) => true,
        AForm::Arith(_) => true,
        AForm::Unpack => true,
        AForm::Malloc(_) => true,
        AForm::Init(_) => true,
        AForm::Call(_) => false,
        AForm::If0 => false,
        AForm::Halt => false,
    }
}

// Of a node.
fn before(alloc: Global, sets: &mut Vec<Rest>, node: &ANode) -> Result<Ahead, OutOfMemory>
    requires arity { AArity node.now.form (a_values node.now.values.items) }
    requires kids { a_kids node.now.form ≤ length sets.old.items }
    ensures told { IfOk result (λ w. (ts : List ATm) → AllHold (newest sets.old.items) ts
        → Tells node.now.form (a_values node.now.values.items) ts w
        × AllHold (newest sets.new.items) (a_build node.now.form (a_values node.now.values.items) ts)) }
    ensures count { OnOk result (a_kids node.now.form + length sets.new.items ≡ suc (length sets.old.items)) }
{
    let values = node.values.as_slice();
    if declares(&node.form) {
        let made = before_let(alloc, sets, &node.form, values)?;
        return Ok(made);
    }
    match &node.form {
        AForm::Call(_) => {
            let wants = of_call(alloc, values)?;
            let made = before_end(alloc, sets, values, wants)?;
            Ok(made)
        }
        AForm::Halt => {
            let wants = of_halt(alloc, first(values))?;
            let made = before_end(alloc, sets, values, wants)?;
            Ok(made)
        }
        AForm::If0 => {
            let made = before_if(alloc, sets, values)?;
            Ok(made)
        }
        _ => unreachable!(),
    }
}

// What comes after each node, the last node first, and what the terms use that the nodes make.
fn look_back(
    alloc: Global,
    nodes: &[ANode],
    sets: &mut Vec<Rest>,
) -> Result<Vec<Ahead>, OutOfMemory>
    requires row { ARow nodes.now 1 }
    requires none { sets.old.items ≡ [] }
    ensures told { IfOk result (λ r. Told nodes.now (back r.items)) }
    ensures sets { OnOk result (AllHold (newest sets.new.items) (a_onto nodes.now [])) }
    ensures one { OnOk result (length sets.new.items ≡ 1) }
{
    let mut made = Vec::new(alloc);
    let mut left = nodes.len();
    while left > 0 {
        left -= 1;
        let ahead = before(alloc, sets, &nodes[left])?;
        made.push(ahead)?;
    }
    Ok(made)
}

/// What code generation asks of what comes after each node, and of the whole. An error is want of memory.
pub fn look_ahead(alloc: Global, nodes: &[ANode]) -> Result<Aheads, OutOfMemory>
    requires { ARow nodes.now 1 }
    ensures told { IfOk result (λ r. Told nodes.now (back r.each.items)) }
    ensures first { IfOk result (λ r. Listed (used (a_tree nodes.now)) 0 r.first.items) }
{
    let mut sets = Vec::new(alloc);
    let each = look_back(alloc, nodes, &mut sets)?;
    let Some(whole) = sets.pop() else {
        unreachable!()
    };
    let first = list(alloc, whole.used)?;
    Ok(Aheads { each, first })
}
