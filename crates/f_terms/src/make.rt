// Making a term from its parts.
ghost use Rattle.std.specs.Prelude.{◌≡◌, ℕ, MatchResult};
ghost use Rattle.std.specs.List.{All};
ghost use Rattle.f_terms.specs.Read.{place};
ghost use Rattle.f_terms.specs.Shape.{children};
ghost use Rattle.f_terms.specs.ReadTerm.{size_of, part, spanned, IsLoose};
ghost use Rattle.f_terms.specs.Made.{IsAdded, IsSame};
ghost use Rattle.calc_core.specs.Roots.{Differ};

use crate::node::{FNode, FParts, FShape, FTerm};
use idx_core::{OutOfMemory, Span};
use std::alloc::Global;

impl FParts {
    /// No parts.
    pub fn new(alloc: Global) -> FParts
        ensures { size_of result ≡ 0 }
    {
        FParts {
            nodes: Vec::new(alloc),
        }
    }

    /// One part more, by its form: its children are parts that are nobody's child yet. The answer is its number. Where
    /// memory is wanted, the parts are as before, and the form is handed back.
    pub fn add(&mut self, shape: FShape, span: Span) -> Result<u64, (FShape, OutOfMemory)>
        requires loose { All (λ k. IsLoose self.old k) (children shape) }
        requires differ { Differ (children shape) }
        ensures { MatchResult result (λ r. IsAdded self.old self.new (place span) shape r)
            (λ e. IsSame self.old self.new × (e.0 ≡ shape)) }
    {
        let at = self.nodes.len() as u64;
        match self.nodes.push(FNode { span, shape }) {
            Ok(()) => Ok(at),
            Err(failed) => Err((failed.value.shape, OutOfMemory)),
        }
    }

    /// The term of the one part that is nobody's child.
    pub fn done(self) -> FTerm
        requires { (k : ℕ) × IsLoose self k × ((j : ℕ) → IsLoose self j → j ≡ k) }
        ensures { (k : ℕ) → IsLoose self k → spanned result ≡ part self k }
    {
        FTerm { nodes: self.nodes }
    }
}
