// The checker: of a whole program, and at a place of it.
ghost use Rattle.std.specs.Prelude.{◌≡◌, Option, IfOk};
ghost use Rattle.idx_core.specs.declared.span.Span as places;
ghost use Rattle.t_types.specs.WellFormed.{max_names, WellFormedFile};
ghost use Rattle.t_types.specs.Read.{file};
ghost use Rattle.t_terms.specs.ReadProgram.{program as program_of, spanned_program};
ghost use Rattle.t_terms.specs.declared.fault.TCode as codes;
ghost use Rattle.t_rules.specs.Rules.{Accepted};
ghost use Rattle.t_rules.specs.Mismatch as odds;
ghost use Rattle.t_rules.specs.Faults.{ProgramFault, ProgramFaultWith};
ghost use Rattle.t_check.specs.Checked.{checked_program};
ghost use Rattle.t_known.specs.ReadMismatch.{mismatch_or_none};
ghost use Rattle.t_check.specs.Verdict.{IsJudged, IsVerdict, AcceptsOrWants, RefusesOrWants};

use crate::checked::Checked;
use crate::program::check_program;
use crate::salt_of;
use idx_core::{OutOfMemory, Salt};
use std::alloc::Global;
use t_intern::Types;
use t_known::{Labels, Mismatch, Registers};
use t_rules::{at_most_one_fault, at_most_one_mismatch, no_fault_where_accepted};
use t_terms::{TFault, TProgram};

/// A program that is checked, and the numbers of the types of its labels.
#[derive(Clone, Copy)]
pub(crate) struct Labelled<'a> {
    pub(crate) alloc: Global,
    pub(crate) program: &'a TProgram,
    pub(crate) labels: &'a Labels,
}

/// A program at a place of it: what is known there of the registers. Types are numbers of a table of the whole
/// program, which each call is lent.
#[derive(Drop)]
pub(crate) struct Checker<'a> {
    pub(crate) alloc: Global,
    pub(crate) program: &'a TProgram,
    pub(crate) labels: &'a Labels,
    pub(crate) registers: Registers,
}

// Whether the rules accept a program, by a table of the caller's; or its first fault.
fn judge(alloc: Global, types: &mut Types, program: &TProgram) -> Result<(), TFault>
    ensures { IsJudged (spanned_program program.now) result }
{
    match check_program(alloc, types, program) {
        Ok(()) => Ok(()),
        Err(refusal) => Err(refusal.fault()),
    }
}

// The same by a table of its own.
fn verdict(alloc: Global, program: &TProgram, salt: Salt) -> Result<(), TFault>
    ensures { IsJudged (spanned_program program.now) result }
{
    let mut types = Types::salted(alloc, salt);
    judge(alloc, &mut types, program)
}

/// The program, where the typing rules accept it; else its first fault in checking order, with the program handed back:
/// T20, then those of the data (T17, T15, T13), then those of the blocks (T08 to T19). The hashers of its types read
/// the program first, so no types whose hashes collide can be searched out for it.
pub fn check(alloc: Global, program: TProgram) -> Result<Checked, (TProgram, TFault)>
    ensures right { IsVerdict program result }
    ensures accepted { Accepted (program_of program) → AcceptsOrWants result }
    ensures refused { (code : codes.TCode) (span : places.Span) → ProgramFault (spanned_program program) code span →
        RefusesOrWants code span result }
{
    let salt = salt_of(&program);
    check_salted(alloc, program, salt)
}

/// The same, where the caller has what these hashers are to read first: what hangs on all of a text that the program
/// was read from does as well, and is read in less time. It makes no difference to the answer.
pub fn check_salted(
    alloc: Global,
    program: TProgram,
    salt: Salt,
) -> Result<Checked, (TProgram, TFault)>
    ensures right { IsVerdict program result }
    ensures accepted { Accepted (program_of program) → AcceptsOrWants result }
    ensures refused { (code : codes.TCode) (span : places.Span) → ProgramFault (spanned_program program) code span →
        RefusesOrWants code span result }
{
    no_fault_where_accepted();
    at_most_one_fault();
    match verdict(alloc, &program, salt) {
        Ok(()) => Ok(Checked { program }),
        Err(fault) => Err((program, fault)),
    }
}

// What is at odds in the first fault of a program, by a table of the caller's.
fn told_of(
    alloc: Global,
    types: &mut Types,
    program: &TProgram,
) -> Result<Option<Mismatch>, OutOfMemory>
    ensures told { (code : codes.TCode) (span : places.Span) → ProgramFault (spanned_program program.now) code span →
        IfOk result (λ m. ProgramFaultWith (spanned_program program.now) code span (mismatch_or_none m)) }
    ensures one { (code : codes.TCode) (span : places.Span) (m : Option odds.Mismatch) →
        ProgramFaultWith (spanned_program program.now) code span m →
        IfOk result (λ r. mismatch_or_none r ≡ m) }
{
    no_fault_where_accepted();
    at_most_one_fault();
    at_most_one_mismatch();
    match check_program(alloc, types, program) {
        Ok(()) => Ok(None),
        Err(refusal) => refusal.mismatch(types),
    }
}

/// What is at odds in the first fault of a program, where it is T13, T15 or T18: the types, as they are where the fault
/// is, if each has at most 100,000 nodes; nothing is said to be at odds in any other fault, nor in a program that is
/// accepted. The program is checked once more. An error is want of memory.
pub fn mismatch_of(alloc: Global, program: &TProgram) -> Result<Option<Mismatch>, OutOfMemory>
    ensures told { (code : codes.TCode) (span : places.Span) → ProgramFault (spanned_program program.now) code span →
        IfOk result (λ m. ProgramFaultWith (spanned_program program.now) code span (mismatch_or_none m)) }
    ensures one { (code : codes.TCode) (span : places.Span) (m : Option odds.Mismatch) →
        ProgramFaultWith (spanned_program program.now) code span m →
        IfOk result (λ r. mismatch_or_none r ≡ m) }
{
    let mut types = Types::salted(alloc, salt_of(program));
    told_of(alloc, &mut types, program)
}

/// A program that the typing rules accept, as the caller knows, with no check.
pub fn seal(program: TProgram) -> Checked
    requires { ∥ Accepted (program_of program) ∥₁ }
    ensures { checked_program result ≡ program }
{
    Checked { program }
}
