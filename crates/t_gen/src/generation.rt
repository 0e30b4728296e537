// The program of the assembly language for an allocated program.
ghost use Rattle.std.specs.Prelude.{◌≡◌, IfOk};
ghost use Rattle.t_terms.specs.ReadProgram.{program as program_tree};
ghost use Rattle.t_rules.specs.Rules.{Accepted};
ghost use Rattle.a_terms.specs.Program.{program_in, main_in};
ghost use Rattle.t_gen_rules.specs.Gen.{generated};
ghost use Rattle.t_gen_laws.specs.Correct.{Keeps};
ghost use Rattle.t_terms.specs.Flat.{Flat};
ghost use Rattle.t_gen_laws.specs.TypesEach.{TypesEach, TWithin};

use crate::program::all_blocks;
use a_terms::AProgram;
use idx_core::OutOfMemory;
use std::alloc::Global;
use t_emit::constants::all_data;
use t_terms::TProgram;

// The blocks and the data: what is generated for a program is in range by the program's bound.
fn whole_program(alloc: Global, program: &AProgram) -> Result<TProgram, OutOfMemory>
    ensures { IfOk result (λ r. program_tree r ≡ generated (program_in program.now) (main_in program.now)) }
{
    t_gen_laws::invariant_is_kept();
    let blocks = all_blocks(alloc, program, program.blocks(), program.main())?;
    let heap = all_data(alloc, program.data())?;
    Ok(TProgram::new(blocks, heap))
}

/// The program of the assembly language that is generated for an allocated program. The typing rules accept it, it has
/// no package inside a package, its types have a reach of at most 1606, and around no place of a type more than
/// 211106232532992 type names are bound, of which at most 70368744177664 are in scope. It means the same, and enters no
/// block more often than the calls of the allocated program do. Answers want of memory alone.
pub fn generate(alloc: Global, program: &AProgram) -> Result<TProgram, OutOfMemory>
    ensures is { IfOk result (λ r. program_tree r ≡ generated (program_in program.now) (main_in program.now)) }
    ensures accepted { IfOk result (λ r. ∥ Accepted (program_tree r) ∥₁) }
    ensures flat { IfOk result (λ r. ∥ Flat (program_tree r) ∥₁) }
    ensures within { IfOk result (λ r. ∥ TypesEach (TWithin 70368744177664 1606 140737488355328) (program_tree r) ∥₁) }
    ensures keeps { IfOk result (λ r. ∥ Keeps (program_in program.now) (main_in program.now) (program_tree r) ∥₁) }
{
    t_gen_laws::types_are_kept();
    t_gen_laws::packs_are_flat();
    t_gen_laws::types_stay_within();
    t_gen_laws::meaning_is_kept();
    let made = whole_program(alloc, program)?;
    Ok(made)
}
