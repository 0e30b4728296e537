// Where the end of a term wants its variables.
ghost use Rattle.std.specs.Prelude.{◌≡◌, ℕ, cond, IfOk, OnOk};
ghost use Rattle.std.specs.Ordering.{nat_cmp};
ghost use Rattle.std.specs.BTreeMap.{get};
ghost use Rattle.a_terms.specs.Tree.{ATm, ADecl, ATys, Let, Call, Halt};
ghost use Rattle.a_terms.specs.NodeTrees.{a_value, a_values, no_value};
ghost use Rattle.calc_core.specs.Row.{IsSome, top, others};
ghost use Rattle.t_gen_rules.specs.Gen.{names};
ghost use Rattle.t_gen.specs.Uses.{or_zero, wanted_place, Leads};

use crate::told::Wants;
use a_terms::AValue;
use idx_core::{OutOfMemory, sum};
use std::alloc::Global;
use std::collections::BTreeMap;
use t_emit::decls::bare_variable;

// A value is wanted in register r, if it is a variable.
fn want(registers: &mut BTreeMap<u64, u64>, v: &AValue, r: u64) -> Result<(), OutOfMemory>
    ensures { OnOk result ((n : ℕ) → or_zero (get nat_cmp registers.new n)
        ≡ cond (names (a_value v.now) n) r (or_zero (get nat_cmp registers.old n))) }
{
    match bare_variable(v) {
        Some(n) => {
            registers.insert(n, r)?;
            Ok(())
        }
        None => Ok(()),
    }
}

/// Of a call of the first value with the others. An error is want of memory.
pub(crate) fn of_call(alloc: Global, values: &[AValue]) -> Result<Wants, OutOfMemory>
    requires some { IsSome (a_values values.now) }
    ensures { IfOk result (λ w. (ts : ATys)
        → Leads w (Call (top no_value (a_values values.now)) ts (others (a_values values.now)))) }
{
    let count = values.len();
    let mut registers = BTreeMap::new(alloc);
    let mut left = count;
    while left > 1 {
        left -= 1;
        want(&mut registers, &values[left], left as u64)?;
    }
    Ok(Wants {
        registers,
        offset: 0,
        arguments: count as u64 - 1,
    })
}

/// Of a halt with a value. An error is want of memory.
pub(crate) fn of_halt(alloc: Global, v: &AValue) -> Result<Wants, OutOfMemory>
    ensures { IfOk result (λ w. Leads w (Halt (a_value v.now))) }
{
    let mut registers = BTreeMap::new(alloc);
    want(&mut registers, v, 1)?;
    Ok(Wants {
        registers,
        offset: 0,
        arguments: 0,
    })
}

/// The register in which the last variable is wanted, or 0.
pub(crate) fn last_wanted(wants: &Wants) -> u64
    ensures { result ≡ wanted_place wants.now 0 }
{
    match wants.registers.get(&wants.offset) {
        Some(r) => *r,
        None => 0,
    }
}

/// The variables by their numbers outside the last declaration. An error is want of memory.
pub(crate) fn leave(wants: &mut Wants) -> Result<(), OutOfMemory>
    ensures { OnOk result ((x : ADecl) (e : ATm) → Leads wants.old e → Leads wants.new (Let x e)) }
{
    let offset = sum(wants.offset, 1)?;
    wants.offset = offset;
    Ok(())
}
