// Values in place.
ghost use Rattle.std.specs.Prelude.{◌≡◌, ℕ, suc, IfOk, OnOk};
ghost use Rattle.t_terms.specs.Tree.{TSeq};
ghost use Rattle.t_terms.specs.Read.{value as value_tree};
ghost use Rattle.t_emit.specs.Code.{Grows, wrap_small, wrap_boxed, seen, places, small_by, unnest_by};
ghost use Rattle.t_gen_rules.specs.Gen.{place, small, unnest, instead, home, settle, move};
ghost use Rattle.a_terms.specs.NodeTrees.{base as base_tree, a_value};
ghost use Rattle.a_scope.specs.Scope.{homes};

use crate::code::{boxed, emit_move, emit_settle, plain};
use crate::constants::apply_constant;
use crate::emitter::Emitter;
use crate::types::written;
use a_scope::Entry;
use a_terms::{ABase, AValue, AWrap};
use idx_core::{OutOfMemory, Span};
use std::alloc::Global;
use t_terms::{Base, Instr, Value};

/// The number after it. Where it would pass 64 bits, which no label of a program does, this answers want of memory.
pub fn after(n: u64) -> Result<u64, OutOfMemory>
    ensures { IfOk result (λ r. r ≡ suc n) }
{
    match n.checked_add(1) {
        Some(m) => Ok(m),
        None => Err(OutOfMemory),
    }
}

// The register `to` in the place of `from`.
fn replaced(r: u64, from: u64, to: u64) -> u64
    ensures { result ≡ instead to from r }
{
    if r == from { to } else { r }
}

// A register, after some were saved in others.
fn moved(saved: &[(u64, u64)], r: u64) -> u64
    ensures { result ≡ seen saved.now r }
{
    let mut now = r;
    for i in 0..saved.len() {
        let (from, to) = saved[i];
        now = replaced(now, from, to);
    }
    now
}

/// The register of variable n, after some were saved in others.
pub fn register(vars: &[Entry], saved: &[(u64, u64)], n: u64) -> u64
    ensures { result ≡ place (places vars.now saved.now) n }
{
    let count = vars.len();
    if n < count as u64 {
        let entry = &vars[count - 1 - n as usize];
        moved(saved, entry.register)
    } else {
        0
    }
}

/// The register of variable n.
pub fn register_now(vars: &[Entry], n: u64) -> u64
    ensures { result ≡ place (homes vars.now) n }
{
    let count = vars.len();
    if n < count as u64 {
        let entry = &vars[count - 1 - n as usize];
        entry.register
    } else {
        0
    }
}

// What a value begins with, in place.
fn small_base(
    alloc: Global,
    vars: &[Entry],
    saved: &[(u64, u64)],
    base: ABase,
) -> Result<Value, OutOfMemory>
    ensures { IfOk result (λ r. (t : ℕ) → value_tree r ≡ small t (places vars.now saved.now) (base_tree base)) }
{
    match base {
        ABase::Var(n) => {
            let r = register(vars, saved, n);
            Ok(plain(alloc, Base::Reg(r)))
        }
        ABase::Int(i) => Ok(plain(alloc, Base::Int(i))),
        ABase::Label(l) => {
            let block = after(l)?;
            Ok(plain(alloc, Base::Label(block)))
        }
        ABase::Data(n) => Ok(plain(alloc, Base::Data(n))),
    }
}

// What is put round a value in place: a package inside a package goes into register `spare`.
fn small_wrap(
    alloc: Global,
    code: &mut Vec<(Instr, Span)>,
    spare: u64,
    v: Value,
    w: &AWrap,
) -> Result<Value, OutOfMemory>
    ensures value { IfOk result (λ r. value_tree r ≡ wrap_small spare w.now (value_tree v)) }
    ensures code { OnOk result (Grows code.old.items code.new.items (wrap_boxed spare w.now (value_tree v))) }
{
    match w {
        AWrap::Apply(types) => {
            let made = apply_constant(alloc, v, types)?;
            Ok(made)
        }
        AWrap::Pack { hidden, shape } => {
            let hidden = Box::new(alloc, written(alloc, hidden)?)?;
            let shape = Box::new(alloc, written(alloc, shape)?)?;
            let held = boxed(alloc, code, spare, v)?;
            let inner = Box::new(alloc, held)?;
            Ok(Value::Pack {
                hidden,
                inner,
                shape,
            })
        }
    }
}

/// A value in place, after the instructions for it: those for packages inside packages, by the spare register. An error
/// is want of memory.
pub fn emit_small(
    emitter: &Emitter,
    code: &mut Vec<(Instr, Span)>,
    saved: &[(u64, u64)],
    v: &AValue,
) -> Result<Value, OutOfMemory>
    ensures value { IfOk result (λ r. value_tree r
        ≡ small emitter.now.spare (places emitter.now.vars.now saved.now) (a_value v.now)) }
    ensures code { OnOk result (Grows code.old.items code.new.items
        (unnest emitter.now.spare (places emitter.now.vars.now saved.now) (a_value v.now))) }
{
    let mut made = small_base(emitter.alloc, emitter.vars, saved, v.base)?;
    for w in &v.wraps {
        made = small_wrap(emitter.alloc, code, emitter.spare, made, w)?;
    }
    Ok(made)
}

/// A value in place, where no register was saved. An error is want of memory.
pub fn emit_value(
    emitter: &Emitter,
    code: &mut Vec<(Instr, Span)>,
    v: &AValue,
) -> Result<Value, OutOfMemory>
    ensures value { IfOk result (λ r. value_tree r ≡ small_by emitter.now (a_value v.now)) }
    ensures code { OnOk result (Grows code.old.items code.new.items (unnest_by emitter.now (a_value v.now))) }
{
    let saved = Vec::new(emitter.alloc);
    let made = emit_small(emitter, code, &saved, v)?;
    Ok(made)
}

/// A value in a register, its own or the spare one: which. An error is want of memory.
pub fn emit_settled(
    emitter: &Emitter,
    code: &mut Vec<(Instr, Span)>,
    v: &AValue,
) -> Result<u64, OutOfMemory>
    ensures value { IfOk result (λ r. r ≡ home emitter.now.spare (small_by emitter.now (a_value v.now))) }
    ensures code { OnOk result (Grows code.old.items code.new.items (λ rest. unnest_by emitter.now (a_value v.now)
        (settle emitter.now.spare (small_by emitter.now (a_value v.now)) rest))) }
{
    let held = emit_value(emitter, code, v)?;
    let r = emit_settle(code, emitter.spare, held)?;
    Ok(r)
}

/// A value in this register. An error is want of memory.
pub fn emit_into(
    emitter: &Emitter,
    code: &mut Vec<(Instr, Span)>,
    r: u64,
    v: &AValue,
) -> Result<(), OutOfMemory>
    ensures { OnOk result (Grows code.old.items code.new.items (λ rest. unnest_by emitter.now (a_value v.now)
        (move r (small_by emitter.now (a_value v.now)) rest))) }
{
    let held = emit_value(emitter, code, v)?;
    emit_move(code, r, held)?;
    Ok(())
}
