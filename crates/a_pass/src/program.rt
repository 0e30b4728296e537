// Whole programs.
ghost use Rattle.std.specs.Prelude.{◌≡◌, ◌≤◌, ◌*◌, ◌++◌, ℕ, [], IfOk, OnOk, length};
ghost use Rattle.h_terms.specs.Bound.{HFits};
ghost use Rattle.h_terms.specs.Meaning.{hrun};
ghost use Rattle.h_terms.specs.Nodes.{h_block, h_blocks, HRow, HRows};
ghost use Rattle.h_terms.specs.Program as h;
ghost use Rattle.a_terms.specs.NodeTrees.{a_block, a_blocks, a_data};
ghost use Rattle.a_terms.specs.Arity.{ARow, ARows};
ghost use Rattle.a_terms.specs.Program.{program_in, main_in};
ghost use Rattle.a_terms.specs.Bound.{AFits};
ghost use Rattle.a_terms.specs.Meaning as A;
ghost use Rattle.a_laws.specs.Stands.{Stands};
ghost use Rattle.a_laws.specs.Statements.{ends};
ghost use Rattle.a_laws.specs.Allocate.{alloc_all, alloc_block, alloc_prog, alloc_main, data_all, data_block};

use crate::term::{body, main_term};
use crate::types::a_types;
use a_terms::{ABlock, AData, AProgram};
use h_terms::{HBlock, HProgram};
use idx_core::OutOfMemory;
use std::alloc::Global;

fn block(
    alloc: Global,
    blocks: &[HBlock],
    one: &HBlock,
    tuples: &mut Vec<AData>,
) -> Result<ABlock, OutOfMemory>
    requires { HRow one.now.body.items 1 }
    ensures made { IfOk result (λ r. a_block r ≡
        alloc_block (h_blocks blocks.now) (length tuples.old.items) (h_block one.now)) }
    ensures keeps { OnOk result (a_data tuples.new.items ≡ a_data tuples.old.items ++
        data_block (h_blocks blocks.now) (length tuples.old.items) (h_block one.now)) }
    ensures right { IfOk result (λ r. ARow r.body.items 1) }
{
    let made = body(alloc, blocks, &one.args, &one.body, tuples)?;
    let args = a_types(alloc, &one.args)?;
    Ok(ABlock {
        owes: one.owes,
        args,
        body: made,
    })
}

fn all_blocks(
    alloc: Global,
    blocks: &[HBlock],
    tuples: &mut Vec<AData>,
) -> Result<Vec<ABlock>, OutOfMemory>
    requires rows { HRows blocks.now }
    requires first { tuples.old.items ≡ [] }
    ensures made { IfOk result (λ r. a_blocks r.items ≡ alloc_all (h_blocks blocks.now) 0 (h_blocks blocks.now)) }
    ensures keeps { OnOk result (a_data tuples.new.items ≡ data_all (h_blocks blocks.now) 0 (h_blocks blocks.now)) }
    ensures right { IfOk result (λ r. ARows r.items) }
{
    let mut made = Vec::with_capacity(alloc, blocks.len())?;
    for one in blocks {
        let b = block(alloc, blocks, one, tuples)?;
        made.push(b)?;
    }
    Ok(made)
}

// The allocation of a program, by its trees alone.
fn allocated(alloc: Global, program: &HProgram) -> Result<AProgram, OutOfMemory>
    ensures program { IfOk result (λ r. program_in r ≡ alloc_prog (h.blocks_in program.now) (h.main_in program.now)) }
    ensures main { IfOk result (λ r. main_in r ≡ alloc_main (h.blocks_in program.now) (h.main_in program.now)) }
{
    a_laws::bounds_are_kept();
    let given = program.blocks();
    let mut tuples = Vec::new(alloc);
    let blocks = all_blocks(alloc, given, &mut tuples)?;
    let main = main_term(alloc, given, program.main(), &mut tuples)?;
    a_terms::sizes::keeps_bound(&blocks, &main, &tuples)?;
    Ok(AProgram::new(blocks, main, tuples))
}

/// The allocation of a hoisted program: tuples of constants become data tuples, each other tuple a heap tuple that is
/// filled field by field, and cells become tuples of one field. It is typed; where the program before fits N and R, it
/// fits 3 * N and R; it ends within any number of calls as the program before, and enters the same blocks. Answers want
/// of memory alone; also where the numbers of a program are too large to be written in an assembly text, which no
/// program that a memory holds reaches.
pub fn allocate(alloc: Global, program: &HProgram) -> Result<AProgram, OutOfMemory>
    ensures program { IfOk result (λ r.
        program_in r ≡ alloc_prog (h.blocks_in program.now) (h.main_in program.now)) }
    ensures main { IfOk result (λ r. main_in r ≡ alloc_main (h.blocks_in program.now) (h.main_in program.now)) }
    ensures stands { IfOk result (λ r. ∥ Stands (program_in r) (main_in r) (h.blocks_in program.now)
        (h.main_in program.now) ∥₁) }
    ensures bound { IfOk result
        (λ r. (N M R : ℕ) → 3 * N ≤ M → HFits N R (h.blocks_in program.now) (h.main_in program.now) →
        AFits M R (program_in r) (main_in r)) }
    ensures meaning { IfOk result
        (λ r. ∥ ((n : ℕ) → A.meaning (program_in r) (main_in r) n ≡
        ends [] (hrun n (h.blocks_in program.now) (h.main_in program.now))) ∥₁) }
{
    a_laws::allocation_stands_for_its_program();
    a_laws::bounds_are_kept();
    a_laws::meaning_is_kept();
    h_terms::laws::h_within_is_typed_law();
    let made = allocated(alloc, program)?;
    Ok(made)
}
