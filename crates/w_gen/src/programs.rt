// The word code of a program.
ghost use Rattle.std.specs.Prelude.{◌≡◌, ℕ, ◌+◌, ◌-◌, ◌*◌, ◌/◌, ◌%◌, ◌≤◌, ◌<◌, ◌^◌, Err, map, IfOk};
ghost use Rattle.t_terms.specs.ReadProgram.{program as program_tree};
ghost use Rattle.t_terms.specs.Whole.{Whole};
ghost use Rattle.w_terms.specs.Read.{program as word_program};
ghost use Rattle.w_blocks.specs.Read.{layout};
ghost use Rattle.w_laws.specs.Built.{IsBuilt, runtime_blocks as runtime_trees, runtime_words as runtime_data};
ghost use Rattle.w_gen.specs.declared.error.BuildError.TheVariants as error;
ghost use Rattle.w_gen.specs.Data.{generated, word_code};
ghost use Rattle.w_gen.specs.Limits.{IsTooLarge, IsBuiltInFull};

use crate::blocks::all_blocks;
use crate::data::{addresses, plus, words};
use crate::error::BuildError;
use crate::memory::{Plan, planned};
use crate::runtime::{runtime_blocks, runtime_words};
use idx_core::OutOfMemory;
use std::alloc::Global;
use t_terms::TProgram;
use w_terms::WProgram;

/// The word code of a program with its runtime, for a heap of so many bytes, and memory from the address `base` on. A
/// program is too large where it names a register or a field past its bound, or where its memory ends past 2^47.
pub fn program(
    alloc: Global,
    program: &TProgram,
    base: u64,
    heap: u64,
) -> Result<WProgram, BuildError>
    requires whole { Whole (program_tree program.now) }
    requires aligned { base % 8 ≡ 0 }
    requires pages { heap % 4096 ≡ 0 }
    requires some { 0 < heap }
    ensures built { IfOk result (λ w. IsBuilt (program_tree program.now) base heap (word_program w)) }
    ensures count { IfOk result (λ w. IsBuiltInFull (program_tree program.now) base heap (word_program w)) }
    ensures code { IfOk result (λ w. word_program w ≡ word_code (program_tree program.now) base heap) }
    ensures begins { IfOk result (λ w. w.base ≡ base) }
    ensures fits { IfOk result (λ w. IsTooLarge base heap (program_tree program.now) → ⊥) }
    ensures large { result ≡ Err error.TooLarge → IsTooLarge base heap (program_tree program.now) }
{
    let plan = planned(program, base, heap)?;
    let code = generate(alloc, program, plan)?;
    Ok(code)
}

// The word code by a plan.
fn generate(alloc: Global, program: &TProgram, plan: Plan) -> Result<WProgram, OutOfMemory>
    requires few { plan.many ≤ 2 ^ 20 }
    requires order { plan.base ≤ plan.parts.top }
    ensures { IfOk result (λ w. word_program w
        ≡ generated plan.base ((plan.parts.top - plan.base) / 8) plan.many
        (runtime_trees (layout plan.parts) plan.base plan.heap plan.many) (runtime_data plan.many)
        (program_tree program.now)) }
{
    let Plan {
        base,
        heap,
        many,
        parts,
    } = plan;
    let runtime = runtime_blocks(alloc, parts, base, heap, many)?;
    let start = plus(base, 8 * (many + 32))?;
    let places = addresses(alloc, &program.heap, start)?;
    let blocks = all_blocks(alloc, &program.blocks, &places, runtime)?;
    let mut image = runtime_words(alloc, many)?;
    words(&mut image, &program.heap, &places)?;
    Ok(WProgram {
        blocks,
        base,
        image,
        size: (parts.top - base) / 8,
    })
}
