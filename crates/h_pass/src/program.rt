// Hoisting.
ghost use Rattle.std.specs.Prelude.{◌≡◌, ℕ, List, [], IfOk};
ghost use Rattle.c_terms.specs.Bound.{CFits};
ghost use Rattle.c_terms.specs.Meaning.{crun};
ghost use Rattle.c_terms.specs.Each.{CTypedWith};
ghost use Rattle.c_terms.specs.Reach.{CWithin};
ghost use Rattle.c_terms.specs.Stream as S;
ghost use Rattle.c_terms.specs.Term.{term_of};
ghost use Rattle.h_terms.specs.Meaning.{hrun};
ghost use Rattle.h_terms.specs.Each.{HProgramWith};
ghost use Rattle.h_terms.specs.Bound.{HBound, HFits};
ghost use Rattle.h_terms.specs.Nodes.{h_blocks, h_tree, HRow, HRows};
ghost use Rattle.h_terms.specs.Program.{blocks_in, main_in};
ghost use Rattle.h_pass.specs.Hoist.{blocks_of, main_of};
ghost use Rattle.h_pass.specs.Back.{IsHoisted};
ghost use Rattle.h_pass.specs.Stream.{IsFine};
ghost use Rattle.h_pass.specs.Walk.{Walked, program_of};

use crate::laws::{bound_is_small_law, hoist_meaning_law, hoist_types_law, scoped_is_back_law};
use crate::state::{Open, Walk};
use c_terms::CProgram;
use h_terms::HProgram;
use idx_core::OutOfMemory;
use std::alloc::Global;
use std::collections::VecDeque;

/// The hoisted form of a closed program: a block for each code, in order, and the main term. Each block's code put back
/// for its label gives the closed program. It is typed, each bound on the program before is one on it, and within any
/// number of calls it ends as the program before, and enters the blocks of the codes entered. The program's types
/// become those of the blocks and of the main term. The one other answer is want of memory.
pub fn hoist(alloc: Global, program: CProgram) -> Result<HProgram, OutOfMemory>
    ensures blocks { IfOk result (λ r. blocks_in r ≡ blocks_of (term_of program)) }
    ensures main { IfOk result (λ r. main_in r ≡ main_of (term_of program)) }
    ensures back { IfOk result (λ r. IsHoisted (blocks_in r) (main_in r) (term_of program)) }
    ensures meaning { IfOk result (λ r. (n : ℕ) → hrun n (blocks_in r) (main_in r) ≡ crun n (term_of program)) }
    ensures reach { IfOk result (λ r. (N R B : ℕ) →
        CTypedWith (CWithin N R B) 0 [] (term_of program) → HProgramWith (CWithin N R B) (blocks_in r) (main_in r)) }
    ensures bound { IfOk result (λ r. (N R : ℕ) →
        CFits N R (term_of program) → HFits N R (blocks_in r) (main_in r)) }
{
    bound_is_small_law();
    scoped_is_back_law();
    hoist_meaning_law();
    hoist_types_law();
    let mut walk = start(alloc)?;
    for node in program.into_nodes() {
        walk.step(alloc, node)?;
    }
    walk.finish_call(alloc)?;
    Ok(made(walk))
}

// A walk that begins.
fn start(alloc: Global) -> Result<Walk, OutOfMemory>
    ensures { IfOk result (λ r. (rest : List S.CNd) → IsFine rest → Walked r rest (program_of rest)) }
{
    let mut depths = VecDeque::new(alloc);
    depths.push_front(0)?;
    let current = Open {
        own: None,
        nodes: Vec::new(alloc),
        parts: Vec::new(alloc),
        call: None,
        depths,
    };
    Ok(Walk {
        blocks: Vec::new(alloc),
        current,
        outer: VecDeque::new(alloc),
    })
}

// What a walk made.
fn made(walk: Walk) -> HProgram
    requires blocks { HRows walk.blocks.items }
    requires main { HRow walk.current.nodes.items 1 }
    requires bound { ∥ HBound (h_blocks walk.blocks.items) (h_tree walk.current.nodes.items) ∥₁ }
    ensures blocks { blocks_in result ≡ h_blocks walk.blocks.items }
    ensures main { main_in result ≡ h_tree walk.current.nodes.items }
{
    let Walk {
        blocks,
        current,
        outer: _,
    } = walk;
    let Open {
        own: _,
        nodes,
        parts: _,
        call: _,
        depths: _,
    } = current;
    HProgram::new(blocks, nodes)
}
