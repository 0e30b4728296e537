// Which terms a checker of closed terms takes.
ghost use Rattle.std.specs.Prelude.{◌≡◌, ◌+◌, ◌*◌, ◌<◌, ◌≤◌, ◌++◌, ◌∷◌, [], ◌↔◌, IsTrue, OnOk, IfOk};
ghost use Rattle.f_terms.specs.Limits.{nodes};
ghost use Rattle.f_terms.specs.Scope.{IsClosed};
ghost use Rattle.f_terms.specs.ReadTerm.{count, term_of};
ghost use Rattle.f_terms.specs.Waiting.{IsBound, waits, parts_wait};

use crate::node::{FShape, FTerm};
use idx_core::{OutOfMemory, Scoped};
use std::alloc::Global;

/// A part of a term that is still to be looked at: its node, and how many type names and value names are around it.
#[derive(Clone, Copy)]
pub(crate) struct Waiting {
    pub at: u64,
    pub types: u64,
    pub values: u64,
}

// Whether the names that a form has itself, its parts aside, are among those around it.
fn is_bound(shape: &FShape, types: u64, values: u64) -> bool
    ensures { IsTrue result ↔ IsBound shape.now types values }
{
    match shape {
        FShape::Var(i) => *i < values,
        FShape::Fix { arg, res, .. } => arg.below(types) && res.below(types),
        FShape::Inst(_, t) => t.below(types),
        FShape::Pack { hidden, shape, .. } => hidden.below(types) && shape.below(types),
        _ => true,
    }
}

fn push(waiting: &mut Vec<Waiting>, at: u64, types: u64, values: u64) -> Result<(), OutOfMemory>
    ensures { OnOk result (waiting.new.items ≡ waiting.old.items ++ waits (at ∷ []) types values) }
{
    waiting.push(Waiting { at, types, values })?;
    Ok(())
}

fn push_all(
    waiting: &mut Vec<Waiting>,
    es: &[u64],
    types: u64,
    values: u64,
) -> Result<(), OutOfMemory>
    ensures { OnOk result (waiting.new.items ≡ waiting.old.items ++ waits es.now types values) }
{
    for e in es {
        push(waiting, *e, types, values)?;
    }
    Ok(())
}

// The parts of a form wait.
fn push_parts(
    waiting: &mut Vec<Waiting>,
    shape: &FShape,
    types: u64,
    values: u64,
) -> Result<(), OutOfMemory>
    requires types { types < u64.MAX }
    requires values { values + 2 ≤ u64.MAX }
    ensures { OnOk result (waiting.new.items ≡ waiting.old.items
        ++ parts_wait shape.now types values) }
{
    match shape {
        FShape::Var(_) | FShape::Int(_) => Ok(()),
        FShape::Fix { body, .. } => push(waiting, *body, types, values + 2),
        FShape::Gen(body) => push(waiting, *body, types + 1, values),
        FShape::Inst(e, _) | FShape::Proj(_, e) => push(waiting, *e, types, values),
        FShape::Pack { inner: e, .. } => push(waiting, *e, types, values),
        FShape::Ref(e) | FShape::Deref(e) => push(waiting, *e, types, values),
        FShape::Let(a, b) => {
            push(waiting, *a, types, values)?;
            push(waiting, *b, types, values + 1)
        }
        FShape::Open(a, b) => {
            push(waiting, *a, types, values)?;
            push(waiting, *b, types + 1, values + 1)
        }
        FShape::App(a, b) | FShape::Arith(_, a, b) | FShape::Assign(a, b) => {
            push(waiting, *a, types, values)?;
            push(waiting, *b, types, values)
        }
        FShape::If0(c, a, b) => {
            push(waiting, *c, types, values)?;
            push(waiting, *a, types, values)?;
            push(waiting, *b, types, values)
        }
        FShape::Tuple(es) => push_all(waiting, es, types, values),
    }
}

/// Whether a term has no free names and no more than 4294967295 nodes, which is what a checker asks of it. Answers want
/// of memory alone.
pub fn admit(alloc: Global, term: &FTerm) -> Result<bool, OutOfMemory>
    ensures { IfOk result (λ b. IsTrue b ↔ (IsClosed (term_of term.now) × (nodes (term_of term.now) ≤ 4294967295))) }
{
    let count = term.count();
    if count > 4294967295 {
        return Ok(false);
    }
    let mut waiting = Vec::new(alloc);
    push(&mut waiting, count - 1, 0, 0)?;
    while let Some(part) = waiting.pop() {
        let shape = &term.node(part.at).shape;
        if !is_bound(shape, part.types, part.values) {
            return Ok(false);
        }
        push_parts(&mut waiting, shape, part.types, part.values)?;
    }
    Ok(true)
}
