// The conversion of a program.
ghost use Rattle.std.specs.Prelude.{IfOk};
ghost use Rattle.f_check.specs.Typed.{program_term};
ghost use Rattle.f_terms.specs.ReadTerm as source;
ghost use Rattle.k_pass.specs.Converted.{Converted};
ghost use Rattle.k_terms.specs.Whole.{term_of};

use crate::convert::emit;
use f_check::Program;
use f_terms::types_aside;
use idx_core::OutOfMemory;
use k_laws::{
    codes_of_a_conversion, conversion_is_a_translation, conversion_keeps_meaning,
    conversion_keeps_reach, conversion_keeps_the_bound, conversion_keeps_types, one_conversion,
};
use k_terms::KProgram;
use k_terms::laws::{nodes_are_read_back, typed_is_in_scope};
use std::alloc::Global;

/// Converts a program to continuation-passing style. Answers want of memory alone.
pub fn cps(alloc: Global, program: &Program) -> Result<KProgram, OutOfMemory>
    ensures { IfOk result (λ r. Converted (source.term_of (program_term program.now)) (term_of r)) }
{
    types_aside();
    one_conversion();
    conversion_is_a_translation();
    conversion_keeps_meaning();
    conversion_keeps_types();
    conversion_keeps_reach();
    conversion_keeps_the_bound();
    codes_of_a_conversion();
    typed_is_in_scope();
    nodes_are_read_back();
    let nodes = emit(alloc, program.term(), program.types())?;
    Ok(KProgram::new(nodes))
}
