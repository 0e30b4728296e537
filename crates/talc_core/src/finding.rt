// What is found of a text: its first fault, with what is told of it.
ghost use Rattle.std.specs.Prelude.{◌≡◌, ◌≤◌, ℕ, List, IfOk};
ghost use Rattle.f_terms.specs.Limits.{nodes};
ghost use Rattle.f_terms.specs.ReadTerm.{spanned, term_of};
ghost use Rattle.f_terms.specs.Faults as typing;
ghost use Rattle.f_terms.specs.Scope.{IsClosed};
ghost use Rattle.f_terms.specs.Ty.{NoTys};
ghost use Rattle.f_check.specs.Typed.{typed_term, typed_type};
ghost use Rattle.f_check.specs.Verdict as source;
ghost use Rattle.f_terms.specs.Read.{tree};
ghost use Rattle.t_terms.specs.ReadProgram.{spanned_program};
ghost use Rattle.t_rules.specs.Faults as checking;
ghost use Rattle.t_check.specs.Verdict as assembly;
ghost use Rattle.talc_core.specs.FirstFault.{AProgram, AnAssembly, IsParsed, IsChecked, IsAssembly};
ghost use Rattle.talc_core.specs.Steps.{IsBare, IsFinding, told_of};
ghost use Rattle.talc_core.specs.AtOdds.{with_no_value};

use crate::fault::Fault;
use crate::fault::wanted::could_stand;
use crate::refusal::Refusal;
use f_check::{Typed, check, mismatch_of};
use f_grammar::closed_terms;
use f_parser::parse;
use f_terms::{Code, FFault, FTerm};
use idx_core::{OutOfMemory, Span};
use std::alloc::Global;
use t_check::check_salted;
use t_reader::{read_salted, salt_of};
use t_terms::{TFault, TProgram};
use talc_faults::{
    Form, assembly_lines, form_of, found_form, not_int_line, source_lines, value_place,
};

/// What is told of a fault besides its code and its place.
#[derive(Drop)]
pub(crate) struct Told {
    /// What is at odds, or what could stand at the place, in lines without the last line end; or nothing.
    pub(crate) lines: Vec<u8>,
    /// The form of the type that is found.
    pub(crate) form: Form,
    /// The place of the value of a whole that is no program.
    pub(crate) value: Option<Span>,
}

/// What is found of a text that is looked at for its first fault.
#[derive(Drop)]
pub(crate) enum Finding {
    /// It is what is looked for.
    NoFault,
    /// It has this first fault.
    Fault(Fault, Told),
}

// Of a text that is not read no more is told than what could stand at the place.
fn bare(alloc: Global, text: &[u8], refusal: Refusal) -> Result<Finding, OutOfMemory>
    ensures { IfOk result (IsBare text.now refusal) }
{
    match refusal {
        Refusal::Fault(fault) => {
            let wanted = could_stand(alloc, text, fault)?;
            Ok(Finding::Fault(fault, only(wanted, Form::Untold)))
        }
        Refusal::Memory => Err(OutOfMemory),
    }
}

// These lines and this form, with no second place.
fn only(lines: Vec<u8>, form: Form) -> Told
    ensures { told_of result ≡ with_no_value lines.items form }
{
    Told {
        lines,
        form,
        value: None,
    }
}

// The fault of a term that is refused.
fn find_in_refused(alloc: Global, term: &FTerm, fault: FFault) -> Result<Finding, OutOfMemory>
    requires closed { IsClosed (term_of term.now) }
    requires nodes { nodes (term_of term.now) ≤ 4294967295 }
    requires fault { source.Says fault (typing.Fault (spanned term.now) 0 NoTys) }
    ensures { (text : List ℕ) → IsParsed text (spanned term.now) → IfOk result (IsFinding AProgram text) }
{
    match fault {
        FFault::Refused { code, span } => {
            let mismatch = mismatch_of(alloc, term)?;
            let lines = source_lines(alloc, &mismatch)?;
            let told = only(lines, found_form(&mismatch));
            Ok(Finding::Fault(Fault::Source(code, span), told))
        }
        FFault::Memory => Err(OutOfMemory),
    }
}

// The fault of a term that has a type, if that is not `int`.
fn find_in_typed(alloc: Global, typed: Typed) -> Result<Finding, OutOfMemory>
    ensures { (text : List ℕ) → IsChecked text (spanned (typed_term typed)) (tree (typed_type typed)) →
        IfOk result (IsFinding AProgram text) }
{
    match typed.program() {
        Ok(_) => Ok(Finding::NoFault),
        Err((typed, span)) => {
            let told = Told {
                lines: not_int_line(alloc, typed.ty())?,
                form: form_of(typed.ty()),
                value: value_place(typed.term()),
            };
            Ok(Finding::Fault(Fault::Source(Code::E15, span), told))
        }
    }
}

/// What is found of a source text, where a program is looked for.
pub(crate) fn find_in_source(alloc: Global, text: &[u8]) -> Result<Finding, OutOfMemory>
    ensures { IfOk result (IsFinding AProgram text.now) }
{
    closed_terms();
    match parse(alloc, text) {
        Ok(term) => match check(alloc, term) {
            Ok(typed) => find_in_typed(alloc, typed),
            Err((term, fault)) => find_in_refused(alloc, &term, fault),
        },
        Err(fault) => bare(alloc, text, Refusal::from(fault)),
    }
}

// The fault of an assembly program that is refused.
fn find_in_program(alloc: Global, program: &TProgram, fault: TFault) -> Result<Finding, OutOfMemory>
    requires fault { assembly.Says fault (checking.ProgramFault (spanned_program program.now)) }
    ensures { (text : List ℕ) → IsAssembly text (spanned_program program.now) →
        IfOk result (IsFinding AnAssembly text) }
{
    match fault {
        TFault::Refused { code, span } => {
            let mismatch = t_check::mismatch_of(alloc, program)?;
            let lines = assembly_lines(alloc, &mismatch)?;
            Ok(Finding::Fault(Fault::Tal(code, span), only(lines, Form::Untold)))
        }
        TFault::Memory => Err(OutOfMemory),
    }
}

/// What is found of an assembly text, where a program is looked for that the typing rules accept.
pub(crate) fn find_in_assembly(alloc: Global, text: &[u8]) -> Result<Finding, OutOfMemory>
    ensures { IfOk result (IsFinding AnAssembly text.now) }
{
    let salt = salt_of(text);
    match read_salted(alloc, text, salt) {
        Ok(program) => match check_salted(alloc, program, salt) {
            Ok(_) => Ok(Finding::NoFault),
            Err((program, fault)) => find_in_program(alloc, &program, fault),
        },
        Err(fault) => bare(alloc, text, Refusal::from(fault)),
    }
}
