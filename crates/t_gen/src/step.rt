// One node.
ghost use Rattle.std.specs.Prelude.{◌≡◌, ◌<◌, ℕ, List, ◌∷◌, Bool, true, length, OnOk};
ghost use Rattle.t_terms.specs.Read.{blocks_of};
ghost use Rattle.t_terms.specs.declared.block.Block.{Block as TheBlock};
ghost use Rattle.a_terms.specs.Tree.{ATm, Call, If0, Halt, AProg};
ghost use Rattle.a_terms.specs.Read.{atrees};
ghost use Rattle.a_terms.specs.NodeTrees.{a_values, a_build, a_decl, a_let, is_decl, no_value, no_term};
ghost use Rattle.a_terms.specs.Arity.{a_kids, AArity};
ghost use Rattle.calc_core.specs.Row.{IsOne, IsSome, top, others};
ghost use Rattle.a_terms.specs.Program.{program_in};
ghost use Rattle.a_scope.specs.Scope.{homes};
ghost use Rattle.t_gen.specs.Uses.{Ending, Tells};
ghost use Rattle.t_gen.specs.Keeps.{Keeps};
ghost use Rattle.t_gen.specs.Pending.{tops, Fit, KeepsAll, Parting, Ready, Stepped};

use crate::Ahead;
use crate::choosing::{above, choose, registers_of, release_all};
use crate::state::{Place, Turn, Walk, close_block, declares};
use a_scope::{Declaration, declare, first};
use a_terms::{AForm, ANode, AProgram, AType, AValue};
use idx_core::OutOfMemory;
use t_emit::calls::emit_call;
use t_emit::decls::emit_declaration;
use t_emit::headers::{Third, emit_if0};
use t_emit::values::emit_into;
use t_emit::{Emitter, Target};
use t_terms::{Block, End};

// A declaration.
fn step_let<'a>(
    program: &AProgram,
    walk: &mut Walk<'a>,
    turn: Turn,
    form: &'a AForm,
    values: &'a [AValue],
) -> Result<(), OutOfMemory>
    requires form { is_decl form.now ≡ true }
    requires arity { AArity form.now (a_values values.now) }
    requires vars { turn.place.vars ≡ length walk.old.vars.items }
    requires fit { (b : ℕ) × Fit b walk.old.vars.items (length walk.old.vars.items)
        (turn.place ∷ tops walk.old.places.items) }
    requires held { (u : ℕ → Bool) × Keeps turn.place.registers (homes walk.old.vars.items) u }
    ensures { OnOk result ((o : List TheBlock) (ts : List ATm)
        → Ending (a_decl form.now (a_values values.now)) (top no_term ts) turn.entry.ahead.now
        → Ready o walk.old.vars.items turn.entry.place walk.old.places.items
        → KeepsAll walk.old.vars.items (turn.entry.place ∷ tops walk.old.places.items)
        (a_let (a_decl form.now (a_values values.now)) ts) → Stepped (program_in program.now) turn.entry.place ts
        (a_let (a_decl form.now (a_values values.now))) 1 walk.old.vars.items walk.new.vars.items
        walk.old.places.items walk.new.places.items o o walk.old.code.items walk.new.code.items) }
{
    let Turn { place, ahead } = turn;
    let Place {
        block,
        names,
        mut registers,
        ..
    } = place;
    let spare = above(&registers, 0)?;
    let rd = choose(&mut registers, &walk.vars, form, values, ahead)?;
    let emitter = Emitter {
        alloc: walk.alloc,
        vars: &walk.vars,
        spare,
    };
    let target = Target { emitter, rd };
    emit_declaration(&target, &mut walk.code, form, values)?;
    let decl = Declaration {
        names,
        form,
        values,
        register: rd,
    };
    let names = declare(walk.alloc, program, &mut walk.vars, &decl)?;
    let vars = walk.vars.len();
    walk.places.push(Place {
        block,
        names,
        vars,
        registers,
    })?;
    Ok(())
}

// A call.
fn step_call(
    out: &mut Vec<Block>,
    walk: &mut Walk,
    place: Place,
    types: &[AType],
    values: &[AValue],
) -> Result<(), OutOfMemory>
    requires arity { IsSome (a_values values.now) }
    requires vars { place.vars ≡ length walk.old.vars.items }
    requires block { place.block < length out.old.items }
    ensures { OnOk result ((prog : AProg) (rest : List ATm)
        → Ready out.old.items walk.old.vars.items place walk.old.places.items
        → KeepsAll walk.old.vars.items (place ∷ tops walk.old.places.items)
        (Call (top no_value (a_values values.now)) (atrees types.now) (others (a_values values.now)) ∷ rest)
        → Stepped prog place rest
        (λ ts. Call (top no_value (a_values values.now)) (atrees types.now) (others (a_values values.now)) ∷ ts)
        0 walk.old.vars.items walk.new.vars.items walk.old.places.items walk.new.places.items
        out.old.items out.new.items walk.old.code.items walk.new.code.items) }
{
    let arguments = values.len() as u64 - 1;
    let above = above(&place.registers, arguments)?;
    let emitter = Emitter {
        alloc: walk.alloc,
        vars: &walk.vars,
        spare: above,
    };
    let end = emit_call(&emitter, &mut walk.code, values, types)?;
    close_block(walk.alloc, out, &mut walk.code, place.block, end);
    Ok(())
}

// The end of the program.
fn step_halt(
    out: &mut Vec<Block>,
    walk: &mut Walk,
    place: Place,
    values: &[AValue],
) -> Result<(), OutOfMemory>
    requires arity { IsOne (a_values values.now) }
    requires vars { place.vars ≡ length walk.old.vars.items }
    requires block { place.block < length out.old.items }
    ensures { OnOk result ((prog : AProg) (rest : List ATm)
        → Ready out.old.items walk.old.vars.items place walk.old.places.items
        → KeepsAll walk.old.vars.items (place ∷ tops walk.old.places.items)
        (Halt (top no_value (a_values values.now)) ∷ rest)
        → Stepped prog place rest (λ ts. Halt (top no_value (a_values values.now)) ∷ ts)
        0 walk.old.vars.items walk.new.vars.items walk.old.places.items walk.new.places.items
        out.old.items out.new.items walk.old.code.items walk.new.code.items) }
{
    let spare = above(&place.registers, 0)?;
    let emitter = Emitter {
        alloc: walk.alloc,
        vars: &walk.vars,
        spare,
    };
    emit_into(&emitter, &mut walk.code, 1, first(values))?;
    close_block(walk.alloc, out, &mut walk.code, place.block, End::Halt);
    Ok(())
}

// A branch: the third part waits below the second.
fn step_if(
    out: &mut Vec<Block>,
    walk: &mut Walk,
    place: Place,
    values: &[AValue],
    ahead: &Ahead,
) -> Result<(), OutOfMemory>
    requires arity { IsOne (a_values values.now) }
    requires vars { place.vars ≡ length walk.old.vars.items }
    ensures { OnOk result ((prog : AProg) (rest : List ATm)
        → Parting (top no_value (a_values values.now)) rest ahead.now
        → Ready out.old.items walk.old.vars.items place walk.old.places.items
        → KeepsAll walk.old.vars.items (place ∷ tops walk.old.places.items)
        (If0 (top no_value (a_values values.now)) (top no_term rest) (top no_term (others rest))
        ∷ others (others rest)) → Stepped prog place rest
        (λ ts. If0 (top no_value (a_values values.now)) (top no_term ts) (top no_term (others ts))
        ∷ others (others ts))
        2 walk.old.vars.items walk.new.vars.items walk.old.places.items walk.new.places.items
        out.old.items out.new.items walk.old.code.items walk.new.code.items) }
{
    let Place {
        block,
        names,
        vars,
        mut registers,
    } = place;
    let spare = above(&registers, 0)?;
    let third = Place {
        block: out.len(),
        names,
        vars,
        registers: registers_of(walk.alloc, &walk.vars, &ahead.third)?,
    };
    let emitter = Emitter {
        alloc: walk.alloc,
        vars: &walk.vars,
        spare,
    };
    let branch = Third {
        names,
        used: &ahead.third,
    };
    emit_if0(&emitter, out, &mut walk.code, &branch, first(values))?;
    release_all(&mut registers, &walk.vars, &ahead.gone, None)?;
    let second = Place {
        block,
        names,
        vars,
        registers,
    };
    walk.places.push(third)?;
    walk.places.push(second)?;
    Ok(())
}

/// One node, at a place.
pub fn step<'a>(
    program: &AProgram,
    out: &mut Vec<Block>,
    walk: &mut Walk<'a>,
    turn: Turn,
    node: &'a ANode,
) -> Result<(), OutOfMemory>
    requires arity { AArity node.now.form (a_values node.now.values.items) }
    requires vars { turn.place.vars ≡ length walk.old.vars.items }
    requires fit { Ready out.old.items walk.old.vars.items turn.place walk.old.places.items }
    requires held { (u : ℕ → Bool) × Keeps turn.place.registers (homes walk.old.vars.items) u }
    ensures { OnOk result ((ts : List ATm)
        → Tells node.now.form (a_values node.now.values.items) ts turn.entry.ahead.now
        → KeepsAll walk.old.vars.items (turn.entry.place ∷ tops walk.old.places.items)
        (a_build node.now.form (a_values node.now.values.items) ts)
        → Stepped (program_in program.now) turn.entry.place ts
        (a_build node.now.form (a_values node.now.values.items)) (a_kids node.now.form)
        walk.old.vars.items walk.new.vars.items walk.old.places.items walk.new.places.items
        out.old.items out.new.items walk.old.code.items walk.new.code.items) }
{
    let values = node.values.as_slice();
    if declares(&node.form) {
        step_let(program, walk, turn, &node.form, values)?;
        return Ok(());
    }
    let Turn { place, ahead } = turn;
    match &node.form {
        AForm::Call(types) => {
            step_call(out, walk, place, types, values)?;
            Ok(())
        }
        AForm::Halt => {
            step_halt(out, walk, place, values)?;
            Ok(())
        }
        AForm::If0 => {
            step_if(out, walk, place, values, ahead)?;
            Ok(())
        }
        _ => unreachable!(),
    }
}
