// The first step of a node.
ghost use Rattle.std.specs.Global.{Global};
ghost use Rattle.std.specs.Prelude.{◌≡◌, ℕ, ◌++◌, ◌∷◌, [], ◌<◌, map, IfOk, OnOk, Vec};
ghost use Rattle.std.specs.List.{All};
ghost use Rattle.f_terms.specs.Tm.{SVar, SFix, SGen, STuple, SPack, tms};
ghost use Rattle.f_terms.specs.Read.{tree, place};
ghost use Rattle.f_terms.specs.ReadTerm.{count, node_at, shape_at};
ghost use Rattle.f_check.specs.Scopes.{bound};
ghost use Rattle.f_check.specs.Walk.{Opens, Leads, Goes, fix_names, open_work, work};
ghost use Rattle.f_terms.specs.declared.node.FShape.TheVariants as shapes;
ghost use Rattle.f_check.specs.Notes.{Begun};
ghost use Rattle.f_check.specs.declared.frame.Control.TheVariants as control;

use crate::count::limit;
use crate::failure::Failure;
use crate::frame::{Branches, Control, Fields, Frame, Head, Instance, Packing, State, Written};
use crate::mismatch::{Wanted, odds};
use crate::parts::shape_body;
use crate::resume::refused;
use crate::scope::{Binder, bind, copy_arrow, find};
use crate::walk::enter;
use f_terms::{Code, FShape, FTerm, FType, copy, depth, size};
use idx_core::{OutOfMemory, Span};
use std::alloc::Global;

/// The first step of node i.
pub(crate) fn begin<'a>(
    alloc: Global,
    term: &'a FTerm,
    state: &mut State<'a>,
    i: u64,
) -> Result<Control, Failure>
    requires { Leads term.now state.old (control.Run i) }
    ensures goes { Goes term.now state.new result (work term.now state.old (control.Run i)) }
    ensures frames { IfOk result (λ c. Begun (shape_at term.now i) state.old.frames.items state.new.frames.items c) }
{
    let node = term.node(i);
    let span = node.span;
    match &node.shape {
        FShape::Var(name) => begin_var(alloc, term, state, span, *name),
        FShape::Int(_) => Ok(Control::Give {
            ty: FType::Int,
            span,
            bound: FType::Int,
        }),
        FShape::Fix { arg, res, body } => {
            let head = Head { span, arg, res };
            begin_fix(alloc, term, state, head, *body)
        }
        FShape::App(f, x) => enter(term, state, Frame::Function { span, x: *x }, *f),
        FShape::Gen(body) => begin_gen(term, state, span, *body),
        FShape::Inst(e, ty) => enter(term, state, Frame::Inst(Instance { span, ty }), *e),
        FShape::Tuple(es) => begin_tuple(alloc, term, state, span, es),
        FShape::Proj(i, e) => enter(term, state, Frame::Proj { span, i: *i }, *e),
        FShape::Arith(_, a, b) => enter(term, state, Frame::Left { span, b: *b }, *a),
        FShape::If0(c, a, b) => {
            let branches = Branches {
                span,
                zero: *a,
                other: *b,
            };
            enter(term, state, Frame::Test(branches), *c)
        }
        FShape::Let(a, b) => enter(term, state, Frame::Let { span, b: *b }, *a),
        FShape::Pack {
            hidden,
            inner,
            shape,
        } => {
            let written = Written {
                span,
                hidden,
                shape,
            };
            begin_pack(alloc, term, state, written, *inner)
        }
        FShape::Open(a, b) => enter(term, state, Frame::Open { span, b: *b }, *a),
        FShape::Ref(e) => enter(term, state, Frame::Ref { span }, *e),
        FShape::Deref(e) => enter(term, state, Frame::Deref { span }, *e),
        FShape::Assign(a, b) => enter(term, state, Frame::Target { span, b: *b }, *a),
    }
}

fn begin_var(
    alloc: Global,
    term: &FTerm,
    state: &State,
    span: Span,
    name: u64,
) -> Result<Control, Failure>
    requires { Opens term.now state.now (SVar (place span) name) }
    ensures goes { Goes term.now state.now result (open_work term.now state.now (SVar (place span) name)) }
    ensures frames { IfOk result (λ c. Begun (shapes.Var name) state.now.frames.items state.now.frames.items c) }
{
    let ty = find(alloc, &state.scope, name, state.around)?;
    Ok(Control::Give {
        ty,
        span,
        bound: FType::Int,
    })
}

// A function and its argument are names around what follows.
fn bind_function(
    alloc: Global,
    scope: &mut Vec<Binder>,
    arg: &FType,
    res: &FType,
    around: u64,
) -> Result<(), OutOfMemory>
    ensures { OnOk result (map bound scope.new.items
        ≡ map bound scope.old.items ++ fix_names around (tree arg.now) (tree res.now)) }
{
    let function = copy_arrow(alloc, arg, res)?;
    let argument = copy(alloc, arg)?;
    bind(scope, function, around)?;
    bind(scope, argument, around)
}

fn begin_fix<'a>(
    alloc: Global,
    term: &FTerm,
    state: &mut State<'a>,
    head: Head<'a>,
    body: u64,
) -> Result<Control, Failure>
    requires opens { Opens term.now state.old
        (SFix (place head.span) (tree head.arg.now) (tree head.res.now) (node_at term.now body)) }
    requires inside { body < count term.now }
    ensures goes { Goes term.now state.new result
        (open_work term.now state.old
        (SFix (place head.entry.span) (tree head.entry.arg.now) (tree head.entry.res.now) (node_at term.now body))) }
    ensures frames { IfOk result (λ c. Begun
        (shapes.Fix head.entry.arg.now head.entry.res.now body) state.old.frames.items state.new.frames.items c) }
{
    let Head { span, arg, res } = head;
    let deep = depth(arg).max(depth(res)).saturating_add(1);
    let wide = size(arg).saturating_add(size(res)).saturating_add(1);
    limit(deep, wide, span)?;
    bind_function(alloc, &mut state.scope, arg, res, state.around)?;
    enter(term, state, Frame::Fix(head), body)
}

fn begin_gen(term: &FTerm, state: &mut State, span: Span, body: u64) -> Result<Control, Failure>
    requires opens { Opens term.now state.old (SGen (place span) (node_at term.now body)) }
    requires inside { body < count term.now }
    ensures goes { Goes term.now state.new result
        (open_work term.now state.old (SGen (place span) (node_at term.now body))) }
    ensures frames { IfOk result (λ c. Begun (shapes.Gen body) state.old.frames.items state.new.frames.items c) }
{
    state.around += 1;
    enter(term, state, Frame::Gen { span }, body)
}

fn begin_pack<'a>(
    alloc: Global,
    term: &FTerm,
    state: &mut State<'a>,
    written: Written<'a>,
    inner: u64,
) -> Result<Control, Failure>
    requires opens { Opens term.now state.old
        (SPack (place written.span) (tree written.hidden.now) (node_at term.now inner) (tree written.shape.now)) }
    requires inside { inner < count term.now }
    ensures goes { Goes term.now state.new result (open_work term.now state.old
        (SPack (place written.entry.span) (tree written.entry.hidden.now) (node_at term.now inner)
        (tree written.entry.shape.now))) }
    ensures frames { IfOk result (λ c. Begun (shapes.Pack written.entry.hidden.now inner written.entry.shape.now)
        state.old.frames.items state.new.frames.items c) }
{
    let Written {
        span,
        hidden,
        shape,
    } = written;
    let body = match shape_body(shape) {
        Some(body) => body,
        None => {
            let found = copy(alloc, shape)?;
            return refused(Code::E16, span, odds(Wanted::Package, found, state.around));
        }
    };
    limit(depth(hidden), size(hidden), span)?;
    limit(depth(shape), size(shape), span)?;
    let packing = Packing {
        span,
        hidden,
        body,
        shape,
    };
    enter(term, state, Frame::Pack(packing), inner)
}

fn begin_tuple<'a>(
    alloc: Global,
    term: &FTerm,
    state: &mut State<'a>,
    span: Span,
    es: &'a [u64],
) -> Result<Control, Failure>
    requires opens { Opens term.now state.old (STuple (place span) (tms (map (node_at term.now) es.now))) }
    requires inside { All (λ k. k < count term.now) es.now }
    ensures goes { Goes term.now state.new result
        (open_work term.now state.old (STuple (place span) (tms (map (node_at term.now) es.now)))) }
    ensures frames { (es' : Vec ℕ Global) → es'.items ≡ es.now → IfOk result
        (λ c. Begun (shapes.Tuple es') state.old.frames.items state.new.frames.items c) }
{
    let types = Vec::new(alloc);
    match es.split_first() {
        None => Ok(Control::Give {
            ty: FType::Tuple(types),
            span,
            bound: FType::Int,
        }),
        Some((e, rest)) => {
            let fields = Fields { span, types, rest };
            enter(term, state, Frame::Fields(fields), *e)
        }
    }
}
