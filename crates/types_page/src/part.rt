// The parts of a term, by their numbers.
ghost use Rattle.std.specs.Prelude.{◌<◌};
ghost use Rattle.std.specs.List.{All};
ghost use Rattle.f_terms.specs.ReadTerm.{count};

use f_terms::FTerm;

/// A part of a term, by the number of its node.
#[derive(Clone, Copy)]
pub(crate) struct Part<'a> {
    pub(crate) term: &'a FTerm,
    pub(crate) at: u64,
    ghost inside: { at < count term.now },
}

/// Parts of a term, by the numbers of their nodes.
#[derive(Clone, Copy)]
pub(crate) struct Parts<'a> {
    pub(crate) term: &'a FTerm,
    pub(crate) numbers: &'a [u64],
    ghost inside: { All (λ k. k < count term.now) numbers.now },
}
