// Whole programs.
ghost use Rattle.std.specs.Prelude.{◌≡◌, ◌∷◌, [], ◌<◌, length, OnOk, IfOk};
ghost use Rattle.t_types.specs.Tree.{NoRegs};
ghost use Rattle.t_terms.specs.Read.{blocks_of};
ghost use Rattle.a_terms.specs.Arity.{ARow, ARows};
ghost use Rattle.a_terms.specs.NodeTrees.{a_blocks, a_tree};
ghost use Rattle.a_terms.specs.Program.{program_in};
ghost use Rattle.t_gen_rules.specs.Gen.{generated_blocks};
ghost use Rattle.t_emit.specs.Code.{reserved};
ghost use Rattle.t_gen.specs.Filling.{finish, reserves, jobs};

use crate::body::{Start, arguments, emit_body};
use a_terms::{ABlock, ANode, AProgram};
use idx_core::OutOfMemory;
use std::alloc::Global;
use t_emit::blocks::reserve;
use t_emit::types::written_args;
use t_terms::Block;

// The program's blocks without their code.
fn reserve_all(alloc: Global, blocks: &[ABlock]) -> Result<Vec<Block>, OutOfMemory>
    ensures { IfOk result (λ r. blocks_of r.items ≡ reserved 0 NoRegs ∷ reserves (a_blocks blocks.now)) }
{
    let mut out = Vec::new(alloc);
    reserve(alloc, &mut out, 0, Vec::new(alloc))?;
    for block in blocks {
        let regs = written_args(alloc, &block.args)?;
        reserve(alloc, &mut out, block.owes, regs)?;
    }
    Ok(out)
}

// The code of a block.
fn emit_block(
    alloc: Global,
    program: &AProgram,
    out: &mut Vec<Block>,
    at: usize,
    block: &ABlock,
) -> Result<(), OutOfMemory>
    requires one { ARow block.now.body.items 1 }
    requires at { at < length out.old.items }
    ensures { OnOk result (blocks_of out.new.items ≡ finish (program_in program.now)
        (length (blocks_of out.old.items)) (blocks_of out.old.items)
        (jobs at (a_blocks (block.now ∷ [])))) }
{
    let vars = arguments(alloc, block.owes, &block.args)?;
    let start = Start {
        block: at,
        names: block.owes,
        vars,
    };
    emit_body(alloc, program, out, start, &block.body)?;
    Ok(())
}

/// The blocks of a program, whose blocks and whose main term these are.
pub fn all_blocks(
    alloc: Global,
    program: &AProgram,
    blocks: &[ABlock],
    main: &[ANode],
) -> Result<Vec<Block>, OutOfMemory>
    requires same { a_blocks blocks.now ≡ (program_in program.now).blocks }
    requires rows { ARows blocks.now }
    requires main { ARow main.now 1 }
    ensures { IfOk result (λ r. blocks_of r.items ≡ generated_blocks (program_in program.now) (a_tree main.now)) }
{
    let mut out = reserve_all(alloc, blocks)?;
    let start = Start {
        block: 0,
        names: 0,
        vars: Vec::new(alloc),
    };
    emit_body(alloc, program, &mut out, start, main)?;
    for i in 0..blocks.len() {
        emit_block(alloc, program, &mut out, i + 1, &blocks[i])?;
    }
    Ok(out)
}
