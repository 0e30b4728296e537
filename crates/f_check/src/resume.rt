// What comes after the type of a part.
ghost use Rattle.std.specs.Prelude.{◌≡◌, ◌++◌, ◌∷◌, [], map, IfOk, OnOk};
ghost use Rattle.f_terms.specs.Read.{tree};
ghost use Rattle.f_check.specs.Scopes.{bound};
ghost use Rattle.f_check.specs.Walk.{Offered, Goes, offer_work, rest_of};
ghost use Rattle.f_check.specs.Notes.{Resumed};
ghost use Rattle.f_check.specs.declared.frame.Frame.TheVariants as frames;
ghost use Rattle.f_check.specs.declared.failure.Failure.TheVariants as failure;

use crate::count::limit;
use crate::failure::Failure;
use crate::frame::{
    Applied, Assignment, Branches, Control, Fields, Frame, Head, Instance, Packing, Passed, State,
};
use crate::mismatch::{Mismatch, Wanted, odds};
use crate::parts::{
    all_body, arrow_parts, cell_part, is_int, outer, some_body, take_field, tuple_parts,
};
use crate::put::{put_or_none, put_within};
use crate::scope::{bind, copy_arrow, leave, leave_last};
use crate::walk::enter;
use f_terms::{Code, FTerm, FType, copy, depth, eq, size};
use idx_core::{OutOfMemory, Span};
use std::alloc::Global;

// The walk stops at a fault, with what is at odds in it.
pub(crate) fn refused(
    code: Code,
    span: Span,
    mismatch: Option<Mismatch>,
) -> Result<Control, Failure>
    ensures { result ≡ Err (failure.Refused code span mismatch) }
{
    Err(Failure::Refused {
        code,
        span,
        mismatch,
    })
}

fn after_fix(
    alloc: Global,
    term: &FTerm,
    state: &mut State,
    head: Head,
    part: Passed,
) -> Result<Control, Failure>
    requires { Offered term.now state.old (frames.Fix head) part.ty part.span }
    ensures goes { Goes term.now state.new result (offer_work term.now state.old []) }
    ensures frames { IfOk result (λ c. Resumed (frames.Fix head.entry)
        (map bound state.old.scope.items) state.old.frames.items state.new.frames.items c) }
{
    leave(&mut state.scope, 2);
    if !eq(&part.ty, head.res) {
        let wanted = copy(alloc, head.res)?;
        let mismatch = odds(Wanted::Exactly(wanted), part.ty, state.around);
        return refused(Code::E14, part.span, mismatch);
    }
    let ty = copy_arrow(alloc, head.arg, head.res)?;
    Ok(Control::Give {
        ty,
        span: head.span,
        bound: FType::Int,
    })
}

fn after_function(
    term: &FTerm,
    state: &mut State,
    span: Span,
    x: u64,
    part: Passed,
) -> Result<Control, Failure>
    requires { Offered term.now state.old (frames.Function span x) part.ty part.span }
    ensures goes { Goes term.now state.new result (offer_work term.now state.old (x ∷ [])) }
    ensures frames { IfOk result (λ c. Resumed (frames.Function span x)
        (map bound state.old.scope.items) state.old.frames.items state.new.frames.items c) }
{
    match arrow_parts(part.ty) {
        Ok((arg, res)) => enter(term, state, Frame::Argument(Applied { span, arg, res }), x),
        Err(found) => {
            let mismatch = odds(Wanted::Function, found, state.around);
            refused(Code::E07, part.span, mismatch)
        }
    }
}

fn after_argument(
    term: &FTerm,
    state: &State,
    applied: Applied,
    part: Passed,
) -> Result<Control, Failure>
    requires { Offered term.now state.now (frames.Argument applied) part.ty part.span }
    ensures goes { Goes term.now state.now result (offer_work term.now state.now []) }
    ensures frames { IfOk result (λ c. Resumed (frames.Argument applied)
        (map bound state.now.scope.items) state.now.frames.items state.now.frames.items c) }
{
    let Applied { span, arg, res } = applied;
    if !eq(&part.ty, &arg) {
        let mismatch = odds(Wanted::Exactly(arg), part.ty, state.around);
        return refused(Code::E08, part.span, mismatch);
    }
    Ok(Control::Give {
        ty: res,
        span,
        bound: FType::Int,
    })
}

fn after_gen(
    alloc: Global,
    term: &FTerm,
    state: &mut State,
    span: Span,
    part: Passed,
) -> Result<Control, Failure>
    requires { Offered term.now state.old (frames.Gen span) part.ty part.span }
    ensures goes { Goes term.now state.new result (offer_work term.now state.old []) }
    ensures frames { IfOk result (λ c. Resumed (frames.Gen span)
        (map bound state.old.scope.items) state.old.frames.items state.new.frames.items c) }
{
    state.around -= 1;
    let deep = depth(&part.ty).saturating_add(1);
    let wide = size(&part.ty).saturating_add(1);
    limit(deep, wide, span)?;
    let ty = FType::All(Box::new(alloc, part.ty)?);
    Ok(Control::Give {
        ty,
        span,
        bound: FType::Int,
    })
}

fn after_inst(
    alloc: Global,
    term: &FTerm,
    state: &State,
    instance: Instance,
    part: Passed,
) -> Result<Control, Failure>
    requires { Offered term.now state.now (frames.Inst instance) part.ty part.span }
    ensures goes { Goes term.now state.now result (offer_work term.now state.now []) }
    ensures frames { IfOk result (λ c. Resumed (frames.Inst instance.entry)
        (map bound state.now.scope.items) state.now.frames.items state.now.frames.items c) }
{
    let Instance { span, ty: arg } = instance;
    let body = match all_body(part.ty) {
        Ok(body) => body,
        Err(found) => {
            let mismatch = odds(Wanted::Polymorphic, found, state.around);
            return refused(Code::E09, part.span, mismatch);
        }
    };
    let ty = put_within(alloc, span, &body, arg)?;
    Ok(Control::Give {
        ty,
        span,
        bound: FType::Int,
    })
}

fn push(types: &mut Vec<FType>, ty: FType) -> Result<(), OutOfMemory>
    ensures { OnOk result (map tree types.new.items ≡ map tree types.old.items ++ tree ty ∷ []) }
{
    types.push(ty)?;
    Ok(())
}

fn after_field<'a>(
    term: &FTerm,
    state: &mut State<'a>,
    fields: Fields<'a>,
    part: Passed,
) -> Result<Control, Failure>
    requires { Offered term.now state.old (frames.Fields fields) part.ty part.span }
    ensures goes { Goes term.now state.new result (offer_work term.now state.old fields.entry.rest.now) }
    ensures frames { IfOk result (λ c. Resumed (frames.Fields fields.entry)
        (map bound state.old.scope.items) state.old.frames.items state.new.frames.items c) }
{
    let Fields { span, types, rest } = fields;
    let mut types = types;
    push(&mut types, part.ty)?;
    match rest.split_first() {
        Some((e, rest)) => {
            let fields = Fields { span, types, rest };
            enter(term, state, Frame::Fields(fields), *e)
        }
        None => {
            let ty = FType::Tuple(types);
            limit(depth(&ty), size(&ty), span)?;
            Ok(Control::Give {
                ty,
                span,
                bound: FType::Int,
            })
        }
    }
}

fn after_proj(
    term: &FTerm,
    state: &State,
    span: Span,
    i: u64,
    part: Passed,
) -> Result<Control, Failure>
    requires { Offered term.now state.now (frames.Proj span i) part.ty part.span }
    ensures goes { Goes term.now state.now result (offer_work term.now state.now []) }
    ensures frames { IfOk result (λ c. Resumed (frames.Proj span i)
        (map bound state.now.scope.items) state.now.frames.items state.now.frames.items c) }
{
    let parts = match tuple_parts(part.ty) {
        Ok(parts) => parts,
        Err(found) => {
            let mismatch = odds(Wanted::Tuple, found, state.around);
            return refused(Code::E10, part.span, mismatch);
        }
    };
    match take_field(parts, i) {
        Ok(ty) => Ok(Control::Give {
            ty,
            span,
            bound: FType::Int,
        }),
        Err(parts) => {
            let mismatch = odds(Wanted::Field, FType::Tuple(parts), state.around);
            refused(Code::E11, span, mismatch)
        }
    }
}

fn after_left(
    term: &FTerm,
    state: &mut State,
    span: Span,
    b: u64,
    part: Passed,
) -> Result<Control, Failure>
    requires { Offered term.now state.old (frames.Left span b) part.ty part.span }
    ensures goes { Goes term.now state.new result (offer_work term.now state.old (b ∷ [])) }
    ensures frames { IfOk result (λ c. Resumed (frames.Left span b)
        (map bound state.old.scope.items) state.old.frames.items state.new.frames.items c) }
{
    if !is_int(&part.ty) {
        let mismatch = odds(Wanted::Exactly(FType::Int), part.ty, state.around);
        return refused(Code::E12, part.span, mismatch);
    }
    enter(term, state, Frame::Right { span }, b)
}

fn after_right(term: &FTerm, state: &State, span: Span, part: Passed) -> Result<Control, Failure>
    requires { Offered term.now state.now (frames.Right span) part.ty part.span }
    ensures goes { Goes term.now state.now result (offer_work term.now state.now []) }
    ensures frames { IfOk result (λ c. Resumed (frames.Right span)
        (map bound state.now.scope.items) state.now.frames.items state.now.frames.items c) }
{
    if !is_int(&part.ty) {
        let mismatch = odds(Wanted::Exactly(FType::Int), part.ty, state.around);
        return refused(Code::E12, part.span, mismatch);
    }
    Ok(Control::Give {
        ty: FType::Int,
        span,
        bound: FType::Int,
    })
}

fn after_test(
    term: &FTerm,
    state: &mut State,
    branches: Branches,
    part: Passed,
) -> Result<Control, Failure>
    requires { Offered term.now state.old (frames.Test branches) part.ty part.span }
    ensures goes { Goes term.now state.new result
        (offer_work term.now state.old (branches.zero ∷ branches.other ∷ [])) }
    ensures frames { IfOk result (λ c. Resumed (frames.Test branches)
        (map bound state.old.scope.items) state.old.frames.items state.new.frames.items c) }
{
    let Branches { span, zero, other } = branches;
    if !is_int(&part.ty) {
        let mismatch = odds(Wanted::Exactly(FType::Int), part.ty, state.around);
        return refused(Code::E12, part.span, mismatch);
    }
    enter(term, state, Frame::Zero { span, b: other }, zero)
}

fn after_zero(
    term: &FTerm,
    state: &mut State,
    span: Span,
    b: u64,
    part: Passed,
) -> Result<Control, Failure>
    requires { Offered term.now state.old (frames.Zero span b) part.ty part.span }
    ensures goes { Goes term.now state.new result (offer_work term.now state.old (b ∷ [])) }
    ensures frames { IfOk result (λ c. Resumed (frames.Zero span b)
        (map bound state.old.scope.items) state.old.frames.items state.new.frames.items c) }
{
    enter(
        term,
        state,
        Frame::Other {
            span,
            zero: part.ty,
        },
        b,
    )
}

fn after_other(
    term: &FTerm,
    state: &State,
    span: Span,
    zero: FType,
    part: Passed,
) -> Result<Control, Failure>
    requires { Offered term.now state.now (frames.Other span zero) part.ty part.span }
    ensures goes { Goes term.now state.now result (offer_work term.now state.now []) }
    ensures frames { IfOk result (λ c. Resumed (frames.Other span zero)
        (map bound state.now.scope.items) state.now.frames.items state.now.frames.items c) }
{
    if !eq(&part.ty, &zero) {
        let mismatch = odds(Wanted::Exactly(zero), part.ty, state.around);
        return refused(Code::E13, part.span, mismatch);
    }
    Ok(Control::Give {
        ty: zero,
        span,
        bound: FType::Int,
    })
}

fn after_let<'a>(
    term: &FTerm,
    state: &mut State<'a>,
    span: Span,
    b: u64,
    part: Passed,
) -> Result<Control, Failure>
    requires { Offered term.now state.old (frames.Let span b) part.ty part.span }
    ensures goes { Goes term.now state.new result (offer_work term.now state.old (b ∷ [])) }
    ensures frames { IfOk result (λ c. Resumed (frames.Let span b)
        (map bound state.old.scope.items) state.old.frames.items state.new.frames.items c) }
{
    bind(&mut state.scope, part.ty, state.around)?;
    enter(term, state, Frame::Body { span }, b)
}

fn after_body(term: &FTerm, state: &mut State, span: Span, part: Passed) -> Result<Control, Failure>
    requires { Offered term.now state.old (frames.Body span) part.ty part.span }
    ensures goes { Goes term.now state.new result (offer_work term.now state.old []) }
    ensures frames { IfOk result (λ c. Resumed (frames.Body span)
        (map bound state.old.scope.items) state.old.frames.items state.new.frames.items c) }
{
    leave(&mut state.scope, 1);
    Ok(Control::Give {
        ty: part.ty,
        span,
        bound: FType::Int,
    })
}

fn after_pack(
    alloc: Global,
    term: &FTerm,
    state: &State,
    packing: Packing,
    part: Passed,
) -> Result<Control, Failure>
    requires { Offered term.now state.now (frames.Pack packing) part.ty part.span }
    ensures goes { Goes term.now state.now result (offer_work term.now state.now []) }
    ensures frames { IfOk result (λ c. Resumed (frames.Pack packing.entry)
        (map bound state.now.scope.items) state.now.frames.items state.now.frames.items c) }
{
    let wanted = match put_or_none(alloc, packing.body, packing.hidden)? {
        Some(wanted) => wanted,
        None => return refused(Code::E17, part.span, None),
    };
    if !eq(&part.ty, &wanted) {
        let mismatch = odds(Wanted::Exactly(wanted), part.ty, state.around);
        return refused(Code::E17, part.span, mismatch);
    }
    let ty = copy(alloc, packing.shape)?;
    Ok(Control::Give {
        ty,
        span: packing.span,
        bound: FType::Int,
    })
}

fn after_open<'a>(
    term: &FTerm,
    state: &mut State<'a>,
    span: Span,
    b: u64,
    part: Passed,
) -> Result<Control, Failure>
    requires { Offered term.now state.old (frames.Open span b) part.ty part.span }
    ensures goes { Goes term.now state.new result (offer_work term.now state.old (b ∷ [])) }
    ensures frames { IfOk result (λ c. Resumed (frames.Open span b)
        (map bound state.old.scope.items) state.old.frames.items state.new.frames.items c) }
{
    let body = match some_body(part.ty) {
        Ok(body) => body,
        Err(found) => {
            let mismatch = odds(Wanted::Package, found, state.around);
            return refused(Code::E16, part.span, mismatch);
        }
    };
    state.around += 1;
    bind(&mut state.scope, body, state.around)?;
    enter(term, state, Frame::Opened { span }, b)
}

fn after_opened(
    alloc: Global,
    term: &FTerm,
    state: &mut State,
    span: Span,
    part: Passed,
) -> Result<Control, Failure>
    requires { Offered term.now state.old (frames.Opened span) part.ty part.span }
    ensures goes { Goes term.now state.new result (offer_work term.now state.old []) }
    ensures frames { IfOk result (λ c. Resumed (frames.Opened span)
        (map bound state.old.scope.items) state.old.frames.items state.new.frames.items c) }
{
    let bound = leave_last(&mut state.scope);
    let names = state.around;
    state.around -= 1;
    let outside = outer(alloc, &part.ty)?;
    match outside {
        Some(ty) => Ok(Control::Give { ty, span, bound }),
        None => {
            let mismatch = odds(Wanted::Outside, part.ty, names);
            refused(Code::E18, part.span, mismatch)
        }
    }
}

fn after_ref(
    alloc: Global,
    term: &FTerm,
    state: &State,
    span: Span,
    part: Passed,
) -> Result<Control, Failure>
    requires { Offered term.now state.now (frames.Ref span) part.ty part.span }
    ensures goes { Goes term.now state.now result (offer_work term.now state.now []) }
    ensures frames { IfOk result (λ c. Resumed (frames.Ref span)
        (map bound state.now.scope.items) state.now.frames.items state.now.frames.items c) }
{
    let deep = depth(&part.ty).saturating_add(1);
    let wide = size(&part.ty).saturating_add(1);
    limit(deep, wide, span)?;
    let ty = FType::Ref(Box::new(alloc, part.ty)?);
    Ok(Control::Give {
        ty,
        span,
        bound: FType::Int,
    })
}

fn after_deref(term: &FTerm, state: &State, span: Span, part: Passed) -> Result<Control, Failure>
    requires { Offered term.now state.now (frames.Deref span) part.ty part.span }
    ensures goes { Goes term.now state.now result (offer_work term.now state.now []) }
    ensures frames { IfOk result (λ c. Resumed (frames.Deref span)
        (map bound state.now.scope.items) state.now.frames.items state.now.frames.items c) }
{
    match cell_part(part.ty) {
        Ok(ty) => Ok(Control::Give {
            ty,
            span,
            bound: FType::Int,
        }),
        Err(found) => {
            let mismatch = odds(Wanted::Reference, found, state.around);
            refused(Code::E21, part.span, mismatch)
        }
    }
}

fn after_target(
    term: &FTerm,
    state: &mut State,
    span: Span,
    b: u64,
    part: Passed,
) -> Result<Control, Failure>
    requires { Offered term.now state.old (frames.Target span b) part.ty part.span }
    ensures goes { Goes term.now state.new result (offer_work term.now state.old (b ∷ [])) }
    ensures frames { IfOk result (λ c. Resumed (frames.Target span b)
        (map bound state.old.scope.items) state.old.frames.items state.new.frames.items c) }
{
    match cell_part(part.ty) {
        Ok(cell) => enter(term, state, Frame::Assigned(Assignment { span, cell }), b),
        Err(found) => {
            let mismatch = odds(Wanted::Reference, found, state.around);
            refused(Code::E21, part.span, mismatch)
        }
    }
}

fn after_assigned(
    alloc: Global,
    term: &FTerm,
    state: &State,
    assignment: Assignment,
    part: Passed,
) -> Result<Control, Failure>
    requires { Offered term.now state.now (frames.Assigned assignment) part.ty part.span }
    ensures goes { Goes term.now state.now result (offer_work term.now state.now []) }
    ensures frames { IfOk result (λ c. Resumed (frames.Assigned assignment)
        (map bound state.now.scope.items) state.now.frames.items state.now.frames.items c) }
{
    let Assignment { span, cell } = assignment;
    if !eq(&part.ty, &cell) {
        let mismatch = odds(Wanted::Exactly(cell), part.ty, state.around);
        return refused(Code::E22, part.span, mismatch);
    }
    Ok(Control::Give {
        ty: FType::Tuple(Vec::new(alloc)),
        span,
        bound: FType::Int,
    })
}

/// What the frame does with the part that it waits for.
pub(crate) fn resume<'a>(
    alloc: Global,
    term: &FTerm,
    state: &mut State<'a>,
    frame: Frame<'a>,
    part: Passed,
) -> Result<Control, Failure>
    requires { Offered term.now state.old frame part.ty part.span }
    ensures goes { Goes term.now state.new result (offer_work term.now state.old (rest_of frame.entry)) }
    ensures frames { IfOk result (λ c. Resumed frame.entry
        (map bound state.old.scope.items) state.old.frames.items state.new.frames.items c) }
{
    match frame {
        Frame::Fix(head) => after_fix(alloc, term, state, head, part),
        Frame::Function { span, x } => after_function(term, state, span, x, part),
        Frame::Argument(applied) => after_argument(term, state, applied, part),
        Frame::Gen { span } => after_gen(alloc, term, state, span, part),
        Frame::Inst(instance) => after_inst(alloc, term, state, instance, part),
        Frame::Fields(fields) => after_field(term, state, fields, part),
        Frame::Proj { span, i } => after_proj(term, state, span, i, part),
        Frame::Left { span, b } => after_left(term, state, span, b, part),
        Frame::Right { span } => after_right(term, state, span, part),
        Frame::Test(branches) => after_test(term, state, branches, part),
        Frame::Zero { span, b } => after_zero(term, state, span, b, part),
        Frame::Other { span, zero } => after_other(term, state, span, zero, part),
        Frame::Let { span, b } => after_let(term, state, span, b, part),
        Frame::Body { span } => after_body(term, state, span, part),
        Frame::Pack(packing) => after_pack(alloc, term, state, packing, part),
        Frame::Open { span, b } => after_open(term, state, span, b, part),
        Frame::Opened { span } => after_opened(alloc, term, state, span, part),
        Frame::Ref { span } => after_ref(alloc, term, state, span, part),
        Frame::Deref { span } => after_deref(term, state, span, part),
        Frame::Target { span, b } => after_target(term, state, span, b, part),
        Frame::Assigned(assignment) => after_assigned(alloc, term, state, assignment, part),
    }
}
