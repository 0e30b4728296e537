// Instructions are emitted for declarations.
ghost use Rattle.std.specs.Prelude.{◌≡◌, ℕ, true, Bool, Option, OnOk, IfOk};
ghost use Rattle.t_terms.specs.Tree.{TSeq};
ghost use Rattle.t_emit.specs.Code.{Grows, bare_var, both_used, both_names, kept, decl_by};
ghost use Rattle.t_gen_rules.specs.Gen.{free as the_free, owner as the_owner, target as the_target};
ghost use Rattle.t_gen_rules.specs.Gen.{other_than};
ghost use Rattle.a_terms.specs.NodeTrees.{a_value, a_values, is_decl, a_decl};
ghost use Rattle.a_terms.specs.Tree.{ATm, Value as TheValue, Proj, Arith, Unpack, Init};
ghost use Rattle.a_terms.specs.Arity.{AArity};
ghost use Rattle.a_scope.specs.Scope.{homes};

use crate::code::put;
use crate::emitter::{Emitter, Target};
use crate::types::written_all;
use crate::values::{after, emit_into, emit_settled, emit_value, register_now};
use a_scope::{Entry, first, second};
use a_terms::{ABase, AForm, AValue};
use idx_core::{Op, OutOfMemory, Span};
use t_terms::Instr;

/// The variable that a value is, if it is one with nothing around it.
pub fn bare_variable(v: &AValue) -> Option<u64>
    ensures { result ≡ bare_var (a_value v.now) }
{
    let wraps = v.wraps.as_slice();
    if wraps.len() > 0 {
        return None;
    }
    match v.base {
        ABase::Var(n) => Some(n),
        ABase::Int(_) => None,
        ABase::Label(_) => None,
        ABase::Data(_) => None,
    }
}

// The register in which a value is left that gets one more name: `both` says that both names are used.
fn owner(vars: &[Entry], v: &AValue, both: bool, free: u64) -> u64
    ensures { (u : ℕ → Bool) (e : ATm) → both ≡ both_used (a_value v.now) e → free ≡ the_free (homes vars.now) u e
        → result ≡ the_owner (homes vars.now) (a_value v.now) u e }
{
    match bare_variable(v) {
        Some(n) => {
            let own = register_now(vars, n);
            if both { free } else { own }
        }
        None => free,
    }
}

/// The register of the variable that is declared: `both` says that the rest uses a value by both of its names, and
/// `free` is the register of a new variable, which holds nothing of the rest, nor what is stored.
pub fn target(vars: &[Entry], form: &AForm, values: &[AValue], both: bool, free: u64) -> u64
    requires form { is_decl form.now ≡ true }
    requires arity { AArity form.now (a_values values.now) }
    ensures { (e : ATm) → both ≡ both_names (a_decl form.now (a_values values.now)) e
        → free ≡ the_free (homes vars.now) (kept (a_decl form.now (a_values values.now)) e) e
        → result ≡ the_target (homes vars.now) (a_decl form.now (a_values values.now)) e }
{
    match form {
        AForm::Value => owner(vars, first(values), both, free),
        AForm::Init(_) => owner(vars, first(values), both, free),
        AForm::Proj(_) => free,
        AForm::Arith(_) => free,
        AForm::Unpack => free,
        AForm::Malloc(_) => free,
        _ => unreachable!(),
    }
}

/// The instructions of a declaration, whose variable gets this target. An error is want of memory.
pub fn emit_declaration(
    target: &Target,
    code: &mut Vec<(Instr, Span)>,
    form: &AForm,
    values: &[AValue],
) -> Result<(), OutOfMemory>
    requires form { is_decl form.now ≡ true }
    requires arity { AArity form.now (a_values values.now) }
    ensures { OnOk result (Grows code.old.items code.new.items
        (decl_by target.now (a_decl form.now (a_values values.now)))) }
{
    match form {
        AForm::Value => Ok(name(target, code, first(values))?),
        AForm::Proj(i) => Ok(project(target, code, *i, first(values))?),
        AForm::Arith(op) => Ok(operate(target, code, *op, first(values), second(values))?),
        AForm::Unpack => Ok(open(target, code, first(values))?),
        AForm::Malloc(types) => {
            let types = written_all(target.emitter.alloc, types)?;
            let rd = target.rd;
            put(code, Instr::Malloc { rd, types })?;
            Ok(())
        }
        AForm::Init(i) => Ok(initialise(target, code, *i, first(values), second(values))?),
        _ => unreachable!(),
    }
}

// A value, in the register of its name.
fn name(target: &Target, code: &mut Vec<(Instr, Span)>, v: &AValue) -> Result<(), OutOfMemory>
    ensures { OnOk result (Grows code.old.items code.new.items (decl_by target.now (TheValue (a_value v.now)))) }
{
    emit_into(&target.emitter, code, target.rd, v)?;
    Ok(())
}

// The load of a value's field i.
fn project(
    target: &Target,
    code: &mut Vec<(Instr, Span)>,
    i: u64,
    v: &AValue,
) -> Result<(), OutOfMemory>
    ensures { OnOk result (Grows code.old.items code.new.items (decl_by target.now (Proj i (a_value v.now)))) }
{
    let rd = target.rd;
    let emitter = Emitter {
        alloc: target.emitter.alloc,
        vars: target.emitter.vars,
        spare: rd,
    };
    let rs = emit_settled(&emitter, code, v)?;
    let field = i.saturating_sub(1);
    put(code, Instr::Ld { rd, rs, field })?;
    Ok(())
}

// The operation on two values.
fn operate(
    target: &Target,
    code: &mut Vec<(Instr, Span)>,
    op: Op,
    v: &AValue,
    w: &AValue,
) -> Result<(), OutOfMemory>
    ensures { OnOk result (Grows code.old.items code.new.items
        (decl_by target.now (Arith op (a_value v.now) (a_value w.now)))) }
{
    let rd = target.rd;
    let rs = emit_settled(&target.emitter, code, v)?;
    let next = after(target.emitter.spare)?;
    let emitter = Emitter {
        alloc: target.emitter.alloc,
        vars: target.emitter.vars,
        spare: next,
    };
    let v = emit_value(&emitter, code, w)?;
    put(code, Instr::Arith { op, rd, rs, v })?;
    Ok(())
}

// What a package holds.
fn open(target: &Target, code: &mut Vec<(Instr, Span)>, v: &AValue) -> Result<(), OutOfMemory>
    ensures { OnOk result (Grows code.old.items code.new.items (decl_by target.now (Unpack (a_value v.now)))) }
{
    let rd = target.rd;
    let emitter = Emitter {
        alloc: target.emitter.alloc,
        vars: target.emitter.vars,
        spare: rd,
    };
    let held = emit_value(&emitter, code, v)?;
    put(code, Instr::Unpack { rd, v: held })?;
    Ok(())
}

// The first register from `spare` on but rd.
fn spare_besides(spare: u64, rd: u64) -> Result<u64, OutOfMemory>
    ensures { IfOk result (λ s. s ≡ other_than rd spare) }
{
    if rd == spare {
        return Ok(after(spare)?);
    }
    Ok(spare)
}

// The store of a value in a tuple's field i.
fn initialise(
    target: &Target,
    code: &mut Vec<(Instr, Span)>,
    i: u64,
    v: &AValue,
    w: &AValue,
) -> Result<(), OutOfMemory>
    ensures { OnOk result (Grows code.old.items code.new.items
        (decl_by target.now (Init (a_value v.now) i (a_value w.now)))) }
{
    let rd = target.rd;
    let next = spare_besides(target.emitter.spare, rd)?;
    let emitter = Emitter {
        alloc: target.emitter.alloc,
        vars: target.emitter.vars,
        spare: next,
    };
    emit_into(&emitter, code, rd, v)?;
    let rs = emit_settled(&emitter, code, w)?;
    let field = i.saturating_sub(1);
    put(code, Instr::St { rd, field, rs })?;
    Ok(())
}
