// Instructions are emitted for calls.
ghost use Rattle.std.specs.Prelude.{◌≡◌, ◌+◌, ◌<◌, ◌≤◌, ◌^◌, ℕ, List, drop, length, IfOk, OnOk};
ghost use Rattle.t_terms.specs.Tree.{TSeq, Ends};
ghost use Rattle.t_terms.specs.Read.{end_of};
ghost use Rattle.t_emit.specs.Code.{Grows, onto, places, after_saves, call_from};
ghost use Rattle.t_gen_rules.specs.Gen.{call_code, above_saved, places_saved, saved as saved_code, owns, reads, later};
ghost use Rattle.t_gen_rules.specs.Gen.{tys};
ghost use Rattle.a_terms.specs.Tree.{AVal};
ghost use Rattle.a_terms.specs.Read.{atrees};
ghost use Rattle.a_terms.specs.NodeTrees.{a_value, a_values, no_value};
ghost use Rattle.calc_core.specs.Row.{top, others, IsSome};
ghost use Rattle.a_scope.specs.Scope.{homes};

use crate::code::{emit_move, plain, put};
use crate::constants::apply_constant;
use crate::decls::bare_variable;
use crate::emitter::Emitter;
use crate::values::{after, emit_small, register};
use a_scope::{Entry, first};
use a_terms::{ABase, AType, AValue};
use idx_core::{OutOfMemory, Span};
use std::alloc::Global;
use t_terms::{Base, End, Instr};

// Whether a value is a variable in that register.
fn is_in(vars: &[Entry], saved: &[(u64, u64)], r: u64, v: &AValue) -> bool
    ensures { result ≡ owns r (places vars.now saved.now) (a_value v.now) }
{
    match bare_variable(v) {
        Some(n) => register(vars, saved, n) == r,
        None => false,
    }
}

// Whether a value names that register.
fn names(vars: &[Entry], saved: &[(u64, u64)], r: u64, v: &AValue) -> bool
    ensures { result ≡ reads r (places vars.now saved.now) (a_value v.now) }
{
    match v.base {
        ABase::Var(n) => register(vars, saved, n) == r,
        ABase::Int(_) => false,
        ABase::Label(_) => false,
        ABase::Data(_) => false,
    }
}

// Whether a value from `from` on names the register, or the first one, which is the code.
fn named_later(vars: &[Entry], saved: &[(u64, u64)], r: u64, values: &[AValue], from: usize) -> bool
    requires some { 1 ≤ length values.now }
    ensures { result ≡ later r (places vars.now saved.now) (a_values (drop from values.now))
        (top no_value (a_values values.now)) }
{
    for i in from..values.len() {
        if names(vars, saved, r, &values[i]) {
            return true;
        }
    }
    names(vars, saved, r, first(values))
}

// A call: the variables in scope, its values, of which the first is the code, and the types that it is applied to.
#[derive(Clone, Copy, Drop)]
pub(crate) struct Call<'b, 'a> {
    pub(crate) alloc: Global,
    pub(crate) vars: &'b [Entry<'a>],
    pub(crate) values: &'b [AValue],
    pub(crate) types: &'b [AType],
}

// The registers that were saved, each with the one that it was saved in, and the first register that holds nothing.
#[derive(Drop)]
pub(crate) struct Saves {
    pub(crate) pairs: Vec<(u64, u64)>,
    pub(crate) free: u64,
}

// Register r is saved in the first free one, if it has to be.
fn save(
    alloc: Global,
    code: &mut Vec<(Instr, Span)>,
    saves: &mut Saves,
    r: u64,
    lost: bool,
) -> Result<(), OutOfMemory>
    ensures free { OnOk result (saves.new.free ≡ above_saved lost saves.old.free) }
    ensures places { OnOk result ((m : List ℕ) → after_saves saves.new.pairs.items m
        ≡ places_saved lost saves.old.free r (after_saves saves.old.pairs.items m)) }
    ensures code { OnOk result (Grows code.old.items code.new.items (saved_code lost saves.old.free r)) }
{
    if lost {
        let above = saves.free;
        let v = plain(alloc, Base::Reg(r));
        put(code, Instr::Mov { rd: above, v })?;
        saves.pairs.push((r, above))?;
        let next = after(above)?;
        saves.free = next;
        Ok(())
    } else {
        Ok(())
    }
}

// Argument i is put into register i.
fn emit_argument(
    call: &Call,
    code: &mut Vec<(Instr, Span)>,
    saves: &mut Saves,
    i: usize,
) -> Result<(), OutOfMemory>
    requires i { i < length call.now.values.now }
    ensures { OnOk result (onto code.new.items (call_from (i + 1) call.now saves.new)
        ≡ onto code.old.items (call_from i call.now saves.old)) }
{
    let v = &call.values[i];
    let r = i as u64;
    let lost = !is_in(call.vars, &saves.pairs, r, v)
        && named_later(call.vars, &saves.pairs, r, call.values, i + 1);
    save(call.alloc, code, saves, r, lost)?;
    let emitter = Emitter {
        alloc: call.alloc,
        vars: call.vars,
        spare: saves.free,
    };
    let held = emit_small(&emitter, code, &saves.pairs, v)?;
    emit_move(code, r, held)?;
    Ok(())
}

// The jump of a call, after its arguments.
fn emit_jump(call: &Call, code: &mut Vec<(Instr, Span)>, saves: &Saves) -> Result<End, OutOfMemory>
    requires some { 1 ≤ length call.now.values.now }
    ensures { IfOk result (λ r. (i : ℕ) → length call.now.values.now ≤ i
        → onto code.new.items (Ends (end_of r)) ≡ onto code.old.items (call_from i call.now saves.now)) }
{
    let emitter = Emitter {
        alloc: call.alloc,
        vars: call.vars,
        spare: saves.free,
    };
    let held = emit_small(&emitter, code, &saves.pairs, first(call.values))?;
    let goes = apply_constant(call.alloc, held, call.types)?;
    Ok(End::Jmp(goes))
}

/// The instructions of a call, and its jump. An error is want of memory.
pub fn emit_call(
    emitter: &Emitter,
    code: &mut Vec<(Instr, Span)>,
    values: &[AValue],
    types: &[AType],
) -> Result<End, OutOfMemory>
    requires some { IsSome (a_values values.now) }
    ensures { IfOk result (λ r. onto code.new.items (Ends (end_of r)) ≡ onto code.old.items
        (call_code 1 emitter.now.spare (homes emitter.now.vars.now) (others (a_values values.now))
        (top no_value (a_values values.now)) (tys (atrees types.now)))) }
{
    let call = Call {
        alloc: emitter.alloc,
        vars: emitter.vars,
        values,
        types,
    };
    let mut saves = Saves {
        pairs: Vec::new(emitter.alloc),
        free: emitter.spare,
    };
    for i in 1..values.len() {
        emit_argument(&call, code, &mut saves, i)?;
    }
    let end = emit_jump(&call, code, &saves)?;
    Ok(end)
}
