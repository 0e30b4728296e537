// Reading the parts of a term.
ghost use Rattle.std.specs.Prelude.{◌≡◌, ◌<◌, map, MatchOption};
ghost use Rattle.std.specs.List.{All};
ghost use Rattle.f_terms.specs.Tm.{MoreTerms, NoTerms, plain_all, tms};
ghost use Rattle.f_terms.specs.Shape.{kids, node_tree};
ghost use Rattle.f_terms.specs.ReadTerm.{count, node_at, term_of};
ghost use Rattle.f_writer.specs.Parts.{part_term, part_terms};

use crate::part::{Part, Parts};
use f_terms::{FNode, FTerm};

pub(crate) fn whole<'a>(term: &'a FTerm) -> Part<'a>
    ensures { part_term result ≡ term_of term.now }
{
    let count = term.count();
    Part {
        term,
        at: count - 1,
    }
}

pub(crate) fn node<'a>(part: Part<'a>) -> &'a FNode
    ensures tree { node_at part.entry.term.now part.entry.at ≡ node_tree (node_at part.entry.term.now) result.now }
    ensures inside { All (λ k. k < count part.entry.term.now) (kids result.now) }
{
    part.term.node(part.at)
}

pub(crate) fn children<'a>(part: Part<'a>, numbers: &'a [u64]) -> Parts<'a>
    requires { All (λ k. k < count part.term.now) numbers.now }
    ensures { part_terms result ≡ plain_all (tms (map (node_at part.entry.term.now) numbers.now)) }
{
    Parts {
        term: part.term,
        numbers,
    }
}

// The first part, and the others.
pub(crate) fn split<'a>(parts: Parts<'a>) -> Option<(Part<'a>, Parts<'a>)>
    ensures { MatchOption result (part_terms parts.entry ≡ NoTerms)
        (λ p. part_terms parts.entry ≡ MoreTerms (part_term p.0) (part_terms p.1)) }
{
    match parts.numbers.split_first() {
        None => None,
        Some((k, numbers)) => {
            let first = Part {
                term: parts.term,
                at: *k,
            };
            let rest = Parts {
                term: parts.term,
                numbers,
            };
            Some((first, rest))
        }
    }
}
