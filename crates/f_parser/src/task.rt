// What is to be done for the binding of names.

use crate::part::{Part, Parts};
use f_grammar::RawType;
use f_terms::{FStep, FType};
use idx_core::Span;

/// The names that a form binds in its last part: none, a function's two value names, a type name, a value name, or a
/// type name and a value name.
#[derive(Clone, Copy)]
pub(crate) enum Leaves {
    Nothing,
    Function,
    Abstraction,
    Binding,
    Opening,
}

/// A term is bound, or the fields of a tuple; a value name, or a type name and a value name, come into scope; the term
/// that was made last is used at a type, or packed; or a form is put, whose parts were made last, and its names are
/// left.
#[derive(Drop)]
pub(crate) enum Task<'a> {
    Term(Part<'a>),
    Fields(Parts<'a>),
    Name(Span),
    Names {
        ty: Span,
        name: Span,
    },
    Inst {
        span: Span,
        ty: &'a RawType,
    },
    Pack {
        span: Span,
        hidden: FType,
        shape: &'a RawType,
    },
    Form {
        span: Span,
        step: FStep,
        names: Leaves,
    },
}
