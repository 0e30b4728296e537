// What is still to be done.

use crate::part::{Part, Parts};

/// A term is to be gone through; fields of the tuple whose type is the last; the last type is that of one more field;
/// the first part of a `let` or an `open` is done, whose binder has this number; all parts of a form are done.
#[derive(Clone, Copy)]
pub(crate) enum Task<'a> {
    Visit(Part<'a>),
    Fields(Parts<'a>),
    Add,
    Bind(Part<'a>, usize),
    Join(Part<'a>),
}
