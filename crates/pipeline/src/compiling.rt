// Compiling.
ghost use Rattle.std.specs.Prelude.{◌≤◌, IfOk};
ghost use Rattle.f_terms.specs.ReadTerm.{term_of};
ghost use Rattle.f_check.specs.Typed.{program_term};
ghost use Rattle.t_terms.specs.ReadProgram.{program as program_tree};
ghost use Rattle.t_terms.specs.Nesting.{nesting};
ghost use Rattle.t_terms.specs.Nesting.{most_open};
ghost use Rattle.t_check.specs.Checked.{checked_program};
ghost use Rattle.t_terms.specs.Flat.{Flat};
ghost use Rattle.t_gen_laws.specs.TypesEach.{TypesEach, TWithin};
ghost use Rattle.pipeline.specs.Made.{IsMade};
ghost use Rattle.pipeline.specs.Meaning.{EntersSeldom};
ghost use Rattle.pipeline.specs.Compilation.{IsCompilation, IsCompilationWithin};
ghost use Rattle.pipeline.specs.Work.{HasBlocks, SameWeights, WorkWithin};

use a_pass::allocate;
use c_pass::close;
use f_check::Program;
use h_pass::hoist;
use idx_core::OutOfMemory;
use k_pass::cps;
use std::alloc::Global;
use t_check::{Checked, seal};
use t_gen::generate;
use t_spill::{is_within, spill};
use t_terms::TProgram;

// The passes one after the other.
fn assemble(alloc: Global, program: &Program) -> Result<TProgram, OutOfMemory>
    ensures compiled { IfOk result (λ p.
        ∥ IsCompilation (term_of (program_term program.now)) (program_tree p) ∥₁) }
    ensures made { IfOk result (λ p. IsMade (term_of (program_term program.now)) (program_tree p)) }
    ensures work { IfOk result (λ p. HasBlocks (term_of (program_term program.now)) (program_tree p)) }
    ensures weights { IfOk result (λ p. SameWeights (term_of (program_term program.now)) (program_tree p)) }
    ensures entered { IfOk result (λ p. ∥ EntersSeldom (term_of (program_term program.now)) (program_tree p) ∥₁) }
    ensures flat { IfOk result (λ p. ∥ Flat (program_tree p) ∥₁) }
    ensures within { IfOk result (λ p.
        ∥ TypesEach (TWithin 70368744177664 1606 140737488355328) (program_tree p) ∥₁) }
{
    t_rules::erased_code_stands_at_its_place();
    t_rules::runs_stay_within_times();
    t_gen_laws::programs_are_laid_out();
    t_gen_laws::generated_programs_are_by_rules();
    let converted = cps(alloc, program)?;
    let closed = close(alloc, &converted)?;
    drop(converted);
    let hoisted = hoist(alloc, closed)?;
    let allocated = allocate(alloc, &hoisted)?;
    drop(hoisted);
    let generated = generate(alloc, &allocated)?;
    Ok(generated)
}

/// The assembly program of a source program, by conversion to continuation-passing style, closure conversion, hoisting,
/// allocation and code generation. The typing rules accept it, and it halts with an integer exactly where the source
/// evaluates to it, in at least as many instructions as that takes turns; no place of it is executed more often than
/// once more than these turns. It has one block for the whole, one for each `fix` and `gen`, for each application,
/// type application and `if0` outside tail place, and for the third part of each `if0`; one `add`, `sub` or `mul` for
/// each of the source's, one `bnz` for each `if0`, one `unpack` for each `open` and each call, one `jmp` for each call,
/// and one `halt` (own choice, as what the paper's passes make). It is a translation of the source by the passes'
/// rules, and the one program that the passes make. Its nesting is within the limit on open constructs. Answers want of
/// memory alone.
pub fn compile(alloc: Global, program: &Program) -> Result<Checked, OutOfMemory>
    ensures compiled { IfOk result (λ p.
        ∥ IsCompilation (term_of (program_term program.now)) (program_tree (checked_program p)) ∥₁) }
    ensures made { IfOk result (λ p.
        IsMade (term_of (program_term program.now)) (program_tree (checked_program p))) }
    ensures work { IfOk result (λ p.
        HasBlocks (term_of (program_term program.now)) (program_tree (checked_program p))) }
    ensures weights { IfOk result (λ p.
        SameWeights (term_of (program_term program.now)) (program_tree (checked_program p))) }
    ensures shallow { IfOk result (λ p. nesting (program_tree (checked_program p)) ≤ most_open) }
{
    let made = assemble(alloc, program)?;
    Ok(seal(made))
}

/// The same within registers 1 to `k`. A program that has no register above `k` stays as `compile` makes it; of any
/// other, what is in its registers is kept in tuples of the heap: it does the same work, and has one block more, which
/// jumps. Answers want of memory alone.
pub fn compile_within(alloc: Global, program: &Program, k: u64) -> Result<Checked, OutOfMemory>
    requires { 8 ≤ k }
    ensures compiled { IfOk result (λ p.
        ∥ IsCompilationWithin k (term_of (program_term program.now)) (program_tree (checked_program p)) ∥₁) }
    ensures work { IfOk result (λ p.
        WorkWithin (term_of (program_term program.now)) (program_tree (checked_program p))) }
    ensures shallow { IfOk result (λ p. nesting (program_tree (checked_program p)) ≤ most_open) }
{
    t_rules::runs_stay_within_times();
    t_spill_laws::places_run_seldom();
    t_spill_laws::few_registers_may_stay();
    let made = assemble(alloc, program)?;
    if is_within(&made, k) {
        return Ok(seal(made));
    }
    let framed = spill(alloc, &made, k)?;
    drop(made);
    Ok(seal(framed))
}
