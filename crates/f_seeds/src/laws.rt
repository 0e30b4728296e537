// What is true of the source of every number, as functions that callers cite.
ghost use Rattle.f_seeds.specs.Laws.{SourcesArePrograms, SourcesHaveNoFault};

use f_grammar::{no_fault_where_read, one_term};
use f_terms::{evaluation_keeps_its_rules, no_fault_beside_a_pass, passes_where_typed};

/// The source of every number, whatever its size, is the text of a term of type `int` within all limits, which
/// has no cells and evaluates to an integer within 1280 turns.
pub fn sources_are_programs()
    ensures { SourcesArePrograms }
{
    evaluation_keeps_its_rules();
    passes_where_typed();
}

/// The source of a number has no first fault, neither of reading nor of checking.
pub fn sources_have_no_fault()
    ensures { SourcesHaveNoFault }
{
    sources_are_programs();
    no_fault_where_read();
    one_term();
    passes_where_typed();
    no_fault_beside_a_pass();
}
