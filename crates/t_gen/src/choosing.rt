// Which registers are in use from one term to the next, and which one a declared variable gets.
ghost use Rattle.std.specs.Prelude.{◌≡◌, ℕ, ◌∷◌, ◌==◌, ◌||◌, ◌&&◌, not, suc, Bool, List, true, IfOk, OnOk};
ghost use Rattle.a_terms.specs.Tree.{ATm, Let};
ghost use Rattle.a_terms.specs.NodeTrees.{a_value, a_values, a_decl, is_decl};
ghost use Rattle.a_terms.specs.Arity.{AArity};
ghost use Rattle.a_scope.specs.Scope.{homes};
ghost use Rattle.t_gen.specs.Uses.{Ending};
ghost use Rattle.t_gen_rules.specs.Gen.{place, top as the_top, used, uses, target as the_target};
ghost use Rattle.t_gen.specs.Keeps.{Keeps, among, each, is_one, stores};
ghost use Rattle.t_gen.specs.Registers.{Holds};

use crate::Ahead;
use crate::registers::Registers;
use a_scope::{Entry, second};
use a_terms::{ABase, AForm, AValue};
use idx_core::OutOfMemory;
use std::alloc::Global;
use t_emit::decls::target;
use t_emit::values::{after, register_now};

/// The registers of these variables. An error is want of memory.
pub fn registers_of(alloc: Global, vars: &[Entry], some: &[u64]) -> Result<Registers, OutOfMemory>
    ensures { IfOk result (λ s. Holds s (among each (homes vars.now) some.now)) }
{
    let mut registers = Registers::new(alloc)?;
    for i in 0..some.len() {
        registers.take(register_now(vars, some[i]))?;
    }
    Ok(registers)
}

/// The first register above those in use and the first `least` ones. An error is want of memory.
pub fn above(registers: &Registers, least: u64) -> Result<u64, OutOfMemory>
    ensures { IfOk result (λ a. (m : List ℕ) (u : ℕ → Bool) → Keeps registers.now m u → a ≡ suc (the_top least m u)) }
{
    let top = registers.top().max(least);
    let next = after(top)?;
    Ok(next)
}

// Whether n is the variable, if there is one.
fn is_it(some: Option<u64>, n: u64) -> bool
    ensures { result ≡ is_one some n }
{
    match some {
        Some(i) => i == n,
        None => false,
    }
}

// The register of variable n holds nothing any more, unless it is that of variable `but`.
fn release_one(
    registers: &mut Registers,
    vars: &[Entry],
    n: u64,
    but: Option<u64>,
) -> Result<(), OutOfMemory>
    ensures { OnOk result ((h : ℕ → Bool) → Holds registers.old h
        → Holds registers.new (λ r. h r && not (not (is_one but n) && place (homes vars.now) n == r))) }
{
    if is_it(but, n) {
        return Ok(());
    }
    registers.release(register_now(vars, n))?;
    Ok(())
}

/// The registers of these variables hold nothing any more, but for that of variable `but`. An error is want of memory.
pub fn release_all(
    registers: &mut Registers,
    vars: &[Entry],
    gone: &[u64],
    but: Option<u64>,
) -> Result<(), OutOfMemory>
    ensures { OnOk result ((h : ℕ → Bool) → Holds registers.old h
        → Holds registers.new (λ r. h r && not (among (λ n. not (is_one but n)) (homes vars.now) gone.now r))) }
{
    for i in 0..gone.len() {
        release_one(registers, vars, gone[i], but)?;
    }
    Ok(())
}

// Register r holds something from now on, if `new` says so.
fn take_if(registers: &mut Registers, r: u64, new: bool) -> Result<(), OutOfMemory>
    ensures { OnOk result ((h : ℕ → Bool) → Holds registers.old h → Holds registers.new (λ q. (new && r == q) || h q)) }
{
    if new {
        registers.take(r)?;
        return Ok(());
    }
    Ok(())
}

// The variable of a value.
fn variable_of(v: &AValue) -> Option<u64>
    ensures { (n : ℕ) → is_one result n ≡ uses (a_value v.now) n }
{
    match v.base {
        ABase::Var(n) => Some(n),
        ABase::Int(_) => None,
        ABase::Label(_) => None,
        ABase::Data(_) => None,
    }
}

// The variable that a declaration stores in a tuple.
fn stored(form: &AForm, values: &[AValue]) -> Option<u64>
    requires form { is_decl form.now ≡ true }
    requires arity { AArity form.now (a_values values.now) }
    ensures { (n : ℕ) → is_one result n ≡ stores (a_decl form.now (a_values values.now)) n }
{
    match form {
        AForm::Init(_) => variable_of(second(values)),
        AForm::Value => None,
        AForm::Proj(_) => None,
        AForm::Arith(_) => None,
        AForm::Unpack => None,
        AForm::Malloc(_) => None,
        _ => unreachable!(),
    }
}

/// The register of the variable that is declared: those in use are then the ones of the rest. What is stored keeps its
/// register until it is stored. A new register is the one in which the end of the rest wants the variable, where it is
/// free, or else the first free one above that end's arguments. An error is want of memory.
pub fn choose(
    registers: &mut Registers,
    vars: &[Entry],
    form: &AForm,
    values: &[AValue],
    ahead: &Ahead,
) -> Result<u64, OutOfMemory>
    requires form { is_decl form.now ≡ true }
    requires arity { AArity form.now (a_values values.now) }
    requires held { (u : ℕ → Bool) × Keeps registers.old (homes vars.now) u }
    ensures { IfOk result (λ rd. (e : ATm) → Ending (a_decl form.now (a_values values.now)) e ahead.now
        → Keeps registers.old (homes vars.now) (used (Let (a_decl form.now (a_values values.now)) e))
        → (rd ≡ the_target (homes vars.now) (a_decl form.now (a_values values.now)) e)
        × Keeps registers.new (rd ∷ homes vars.now) (used e)) }
{
    release_all(registers, vars, &ahead.gone, stored(form, values))?;
    let free = registers.pick(ahead.wanted, ahead.arguments + 1);
    let rd = target(vars, form, values, ahead.both, free);
    release_all(registers, vars, &ahead.gone, None)?;
    take_if(registers, rd, ahead.new)?;
    Ok(rd)
}
