// The part of a whole that its value is that of.
ghost use Rattle.std.specs.Prelude.{◌≡◌, ◌<◌, option_map};
ghost use Rattle.f_terms.specs.Read.{place};
ghost use Rattle.f_terms.specs.ReadTerm.{count, node_at, spanned};
ghost use Rattle.f_terms.specs.Tm.{span_of};
ghost use Rattle.talc_faults.specs.Value.{of_spn, rest_of, value_part, value_place};

use f_terms::{FShape, FTerm};
use idx_core::Span;

// The second part of a `let` or an `open`.
fn rest_of(shape: &FShape) -> Option<u64>
    ensures { result ≡ rest_of shape.now }
{
    match shape {
        FShape::Let(_, rest) => Some(*rest),
        FShape::Open(_, rest) => Some(*rest),
        FShape::Var(_) | FShape::Int(_) | FShape::Fix { .. } | FShape::App(_, _) => None,
        FShape::Gen(_) | FShape::Inst(_, _) | FShape::Tuple(_) | FShape::Proj(_, _) => None,
        FShape::Arith(_, _, _) | FShape::If0(_, _, _) | FShape::Pack { .. } => None,
        FShape::Ref(_) | FShape::Deref(_) | FShape::Assign(_, _) => None,
    }
}

// The place of what the outermost `let`s and `open`s of a part go on with.
fn value_span(term: &FTerm, part: u64) -> Span
    requires { part < count term.now }
    ensures { place result ≡ span_of (value_part (node_at term.now part)) }
{
    let mut at = part;
    while let Some(rest) = rest_of(&term.node(at).shape) {
        at = rest;
    }
    term.node(at).span
}

/// The place of what the outermost `let`s and `open`s of a term go on with, where it is not the whole.
pub fn value_place(term: &FTerm) -> Option<Span>
    ensures { result ≡ option_map of_spn (value_place (spanned term.now)) }
{
    match rest_of(&term.node(term.count() - 1).shape) {
        Some(rest) => Some(value_span(term, rest)),
        None => None,
    }
}
