// From a source text to its term, to the term's type, and to a program.
ghost use Rattle.std.specs.Prelude.{◌≡◌};
ghost use Rattle.f_terms.specs.declared.fault.Code.TheVariants as code;
ghost use Rattle.f_terms.specs.Read.{place};
ghost use Rattle.f_terms.specs.ReadTerm.{spanned};
ghost use Rattle.f_terms.specs.Tm.{span_of};
ghost use Rattle.talc_core.specs.declared.fault.Fault.TheVariants as fault;
ghost use Rattle.talc_core.specs.declared.refusal.Refusal.TheVariants as refusal;
ghost use Rattle.talc_core.specs.Steps.{ChecksSource, ReadsProgram, ReadsCellFree};

use crate::fault::Fault;
use crate::refusal::Refusal;
use f_check::{Program, Typed, check};
use f_grammar::closed_terms;
use f_parser::parse;
use f_terms::{Code, FTerm, has_cells};
use idx_core::Span;
use std::alloc::Global;

// The term of the text, with its type.
pub(crate) fn check_source(alloc: Global, source: &[u8]) -> Result<Typed, Refusal>
    ensures { ChecksSource source.now result }
{
    closed_terms();
    let term = parse(alloc, source)?;
    let typed = check(alloc, term)?;
    Ok(typed)
}

// Why a term of another type than int is no program.
fn not_a_program(refused: (Typed, Span)) -> Refusal
    ensures { result ≡ refusal.Fault (fault.Source code.E15 refused.1) }
{
    Refusal::Fault(Fault::Source(Code::E15, refused.1))
}

// The program of the text.
pub(crate) fn read_program(alloc: Global, source: &[u8]) -> Result<Program, Refusal>
    ensures { ReadsProgram source.now result }
{
    let typed = check_source(alloc, source)?;
    match typed.program() {
        Ok(program) => Ok(program),
        Err(refused) => Err(not_a_program(refused)),
    }
}

// The place of a whole term.
fn whole(term: &FTerm) -> Span
    ensures { place result ≡ span_of (spanned term.now) }
{
    term.node(term.count() - 1).span
}

// Why a program with cells is not evaluated.
fn of_cells(span: Span) -> Refusal
    ensures { result ≡ refusal.Fault (fault.Source code.E19 span) }
{
    Refusal::Fault(Fault::Source(Code::E19, span))
}

// The program of the text, which has no cells.
pub(crate) fn read_cell_free(alloc: Global, source: &[u8]) -> Result<Program, Refusal>
    ensures { ReadsCellFree source.now result }
{
    let program = read_program(alloc, source)?;
    if has_cells(program.term()) {
        Err(of_cells(whole(program.term())))
    } else {
        Ok(program)
    }
}
