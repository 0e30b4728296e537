// The passes one after the other, as far as a form needs them. What a pass took is dropped when its program is made.
ghost use Rattle.std.specs.Prelude.{◌≡◌, IfOk};
ghost use Rattle.f_terms.specs.ReadTerm.{term_of};
ghost use Rattle.f_check.specs.Typed.{program_term};
ghost use Rattle.k_laws.specs.Annotate.{cps_term};
ghost use Rattle.c_terms.specs.Term as C;
ghost use Rattle.c_rules.specs.Close.{close_of};
ghost use Rattle.h_terms.specs.Program as H;
ghost use Rattle.h_pass.specs.Hoist.{blocks_of, main_of};
ghost use Rattle.a_terms.specs.Program as A;
ghost use Rattle.pipeline.specs.Forms.{allocated_program, allocated_main, closed_term};

use a_pass::allocate;
use a_terms::AProgram;
use c_pass::close;
use c_terms::CProgram;
use f_check::Program;
use h_pass::hoist;
use h_terms::HProgram;
use idx_core::OutOfMemory;
use k_pass::cps;
use std::alloc::Global;

// The closed program.
pub(crate) fn closed(alloc: Global, program: &Program) -> Result<CProgram, OutOfMemory>
    ensures { IfOk result (λ r. C.term_of r ≡ closed_term (term_of (program_term program.now))) }
{
    let converted = cps(alloc, program)?;
    let closed = close(alloc, &converted)?;
    Ok(closed)
}

// The hoisted program.
pub(crate) fn hoisted(alloc: Global, program: &Program) -> Result<HProgram, OutOfMemory>
    ensures blocks { IfOk result
        (λ r. H.blocks_in r ≡ blocks_of (closed_term (term_of (program_term program.now)))) }
    ensures main { IfOk result (λ r. H.main_in r ≡ main_of (closed_term (term_of (program_term program.now)))) }
{
    let closed = closed(alloc, program)?;
    let hoisted = hoist(alloc, closed)?;
    Ok(hoisted)
}

// The allocated program.
pub(crate) fn allocated(alloc: Global, program: &Program) -> Result<AProgram, OutOfMemory>
    ensures program { IfOk result
        (λ r. A.program_in r ≡ allocated_program (closed_term (term_of (program_term program.now)))) }
    ensures main { IfOk result
        (λ r. A.main_in r ≡ allocated_main (closed_term (term_of (program_term program.now)))) }
{
    let hoisted = hoisted(alloc, program)?;
    let allocated = allocate(alloc, &hoisted)?;
    Ok(allocated)
}
