// The blocks of one body.
ghost use Rattle.std.specs.Prelude.{◌≡◌, ◌<◌, [], ◌∷◌, length, OnOk, IfOk};
ghost use Rattle.t_terms.specs.Read.{blocks_of};
ghost use Rattle.t_gen.specs.Filling.{finish};
ghost use Rattle.a_terms.specs.Typing.{types_of};
ghost use Rattle.a_terms.specs.Read.{atrees};
ghost use Rattle.a_terms.specs.Program.{program_in};
ghost use Rattle.a_terms.specs.Arity.{ARow};
ghost use Rattle.a_scope.specs.Scope.{scope, homes, Under};
ghost use Rattle.a_terms.specs.Tree.{arity};
ghost use Rattle.t_gen_rules.specs.Gen.{rows};
ghost use Rattle.t_gen.specs.Pending.{start_job};

use crate::choosing::registers_of;
use crate::state::{Place, Turn, Walk};
use crate::step::step;
use crate::{Aheads, look_ahead};
use a_scope::{Entry, noted_lent, placed};
use a_terms::{ANode, AProgram, AType};
use idx_core::OutOfMemory;
use std::alloc::Global;
use t_terms::Block;

/// Where a body begins: its block, how many type names are in scope, and its variables.
#[derive(Drop)]
pub struct Start<'a> {
    pub block: usize,
    pub names: u64,
    pub vars: Vec<Entry<'a>>,
}

/// The blocks of one body: its own, which is reserved, and those of its third parts at the end.
pub fn emit_body<'a>(
    alloc: Global,
    program: &AProgram,
    out: &mut Vec<Block>,
    start: Start<'a>,
    nodes: &'a [ANode],
) -> Result<(), OutOfMemory>
    requires one { ARow nodes.now 1 }
    requires under { Under start.names start.vars.items }
    requires homes { homes start.vars.items ≡ rows (length start.vars.items) }
    requires block { start.block < length out.old.items }
    ensures { OnOk result (blocks_of out.new.items ≡ finish (program_in program.now)
        (length (blocks_of out.old.items)) (blocks_of out.old.items)
        (start_job start.entry nodes.now ∷ [])) }
{
    let Start { block, names, vars } = start;
    let count = vars.len();
    let Aheads {
        each: mut aheads,
        first,
    } = look_ahead(alloc, nodes)?;
    let registers = registers_of(alloc, &vars, &first)?;
    let mut walk = Walk {
        alloc,
        code: Vec::new(alloc),
        vars,
        places: Vec::new(alloc),
    };
    walk.places.push(Place {
        block,
        names,
        vars: count,
        registers,
    })?;
    for node in nodes {
        let Some(place) = walk.places.pop() else {
            unreachable!()
        };
        let Some(ahead) = aheads.pop() else {
            unreachable!()
        };
        walk.vars.truncate(place.vars);
        let turn = Turn {
            place,
            ahead: &ahead,
        };
        step(program, out, &mut walk, turn, node)?;
    }
    Ok(())
}

/// The variables of a block's arguments, whose types are lent.
pub fn arguments<'a>(
    alloc: Global,
    owes: u64,
    args: &'a [AType],
) -> Result<Vec<Entry<'a>>, OutOfMemory>
    ensures scope { IfOk result (λ r. scope owes r.items ≡ types_of (atrees args.now) []) }
    ensures under { IfOk result (λ r. Under owes r.items) }
    ensures homes { IfOk result (λ r. homes r.items ≡ rows (arity (atrees args.now))) }
{
    let mut vars = Vec::new(alloc);
    for t in args {
        let noted = noted_lent(t, owes);
        let register = vars.len() as u64 + 1;
        vars.push(placed(noted, register))?;
    }
    Ok(vars)
}
