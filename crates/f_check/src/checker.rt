// The type of a closed term, or its first fault.
ghost use Rattle.std.specs.Prelude.{◌≡◌, ◌≢◌, ◌≤◌, length, Option, IfOk, MatchResult, IsErrAnd};
ghost use Rattle.idx_core.specs.declared.span.Span as places;
ghost use Rattle.f_terms.specs.Ty.{Ty, NoTys};
ghost use Rattle.f_terms.specs.Limits.{nodes};
ghost use Rattle.f_terms.specs.Scope.{IsClosed};
ghost use Rattle.f_terms.specs.Faults.{FaultNoted, FaultWith, Fault};
ghost use Rattle.f_terms.specs.Mismatch as plain;
ghost use Rattle.f_terms.specs.Accepted.{IsAccepted};
ghost use Rattle.f_terms.specs.Read.{tree, place};
ghost use Rattle.f_terms.specs.declared.fault.Code as codes;
ghost use Rattle.f_terms.specs.declared.fault.FFault.TheVariants as fault;
ghost use Rattle.f_terms.specs.Noted.{Beside};
ghost use Rattle.f_terms.specs.NotedTerm.{noted_of};
ghost use Rattle.f_terms.specs.ReadTerm.{count, term_of, spanned};
ghost use Rattle.f_check.specs.Typed.{typed_term, typed_type};
ghost use Rattle.f_check.specs.Verdict.{Says, IsTypeOf};
ghost use Rattle.f_check.specs.Told.{Tells, read};
ghost use Rattle.f_terms.specs.Tm.{Spn};

use crate::begin::begin;
use crate::failure::{Failure, fault_alone, mismatch_alone};
use crate::frame::{Control, Passed, State};
use crate::mismatch::Mismatch;
use crate::notes::{Answer, blank, close, follow, note};
use crate::resume::resume;
use crate::typed::Typed;
use f_terms::{
    FFault, FTerm, FType, no_fault_beside_a_pass, one_fault, one_mismatch, one_type,
    passes_where_typed,
};
use idx_core::OutOfMemory;
use std::alloc::Global;

// The type of a closed term and, by the numbers of its nodes, the types that it doesn't write; or its first fault: by a
// loop, in two steps for each node.
fn type_of(alloc: Global, term: &FTerm) -> Result<(FType, Vec<FType>), Failure>
    requires closed { IsClosed (term_of term.now) }
    requires nodes { nodes (term_of term.now) ≤ 4294967295 }
    ensures { MatchResult result (λ r. IsTypeOf (spanned term.now) 0 NoTys (tree r.0)
        × (count term.now ≤ length r.1.items) × Beside (noted_of term.now r.1.items) NoTys)
        (λ e. Tells e (FaultNoted (spanned term.now) 0 NoTys)) }
{
    let mut state = State {
        frames: Vec::new(alloc),
        scope: Vec::new(alloc),
        around: 0,
    };
    let root = term.count() - 1;
    let mut types = blank(alloc, term.count())?;
    let mut control = Control::Run(root);
    let mut path = Vec::new(alloc);
    follow(&mut path, &control)?;
    loop {
        match control {
            Control::Run(i) => {
                control = begin(alloc, term, &mut state, i)?;
                follow(&mut path, &control)?;
            }
            Control::Give { ty, span, bound } => {
                let node = close(&mut path);
                let answer = Answer { ty: &ty, bound };
                note(alloc, term, &mut types, node, answer)?;
                match state.frames.pop() {
                    Some(frame) => {
                        let part = Passed { ty, span };
                        control = resume(alloc, term, &mut state, frame, part)?;
                        follow(&mut path, &control)?;
                    }
                    None => return Ok((ty, types)),
                }
            }
        }
    }
}

/// The type of a closed term by the typing rules of the source, where the type of each of its parts keeps the limits
/// on types (own choice); else the first fault in checking order, E07 to E14, E16 to E18, E21, E22, L4 or L5, with the
/// term handed back.
pub fn check(alloc: Global, term: FTerm) -> Result<Typed, (FTerm, FFault)>
    requires closed { IsClosed (term_of term) }
    requires nodes { nodes (term_of term) ≤ 4294967295 }
    ensures right { MatchResult result (λ r. (typed_term r ≡ term) × IsAccepted (term_of term) (tree (typed_type r)))
        (λ r. (r.0 ≡ term) × Says r.1 (Fault (spanned term) 0 NoTys)) }
    ensures typed { (t : Ty) → IsAccepted (term_of term) t → MatchResult result (λ r. tree (typed_type r) ≡ t)
        (λ r. r.1 ≡ fault.Memory) }
    ensures refused { (code : codes.Code) (span : places.Span) → Fault (spanned term) 0 NoTys code (place span) →
        IsErrAnd result (λ r. r.1 ≢ fault.Memory → r.1 ≡ fault.Refused code span) }
{
    passes_where_typed();
    no_fault_beside_a_pass();
    one_fault();
    one_type();
    match type_of(alloc, &term) {
        Ok((ty, types)) => Ok(Typed { term, ty, types }),
        Err(e) => Err((term, fault_alone(e))),
    }
}

/// What is at odds in the first fault of a closed term, E07 to E14, E16 to E18, E21 or E22: what a type had to be, and
/// the type that is there (own choice). None where the fault is L4 or L5, or an E17 where the wanted type passes a
/// limit on types. Errors: want of memory.
pub fn mismatch_of(alloc: Global, term: &FTerm) -> Result<Option<Mismatch>, OutOfMemory>
    requires closed { IsClosed (term_of term.now) }
    requires nodes { nodes (term_of term.now) ≤ 4294967295 }
    ensures { (code : codes.Code) (p : Spn) (m : Option plain.Mismatch) →
        FaultWith (spanned term.now) 0 NoTys code p m → IfOk result (λ r. read r ≡ m) }
{
    no_fault_beside_a_pass();
    one_mismatch();
    match type_of(alloc, term) {
        Ok(_) => Ok(None),
        Err(e) => mismatch_alone(e),
    }
}
