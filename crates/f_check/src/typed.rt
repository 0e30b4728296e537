// Terms whose type is known.
ghost use Rattle.std.specs.Prelude.{◌≤◌, length};
ghost use Rattle.f_terms.specs.Ty.{TInt, NoTys, Closed};
ghost use Rattle.f_terms.specs.Limits.{nodes};
ghost use Rattle.f_terms.specs.Scope.{IsClosed};
ghost use Rattle.f_terms.specs.Accepted.{IsAccepted};
ghost use Rattle.f_terms.specs.Props.{accepted_prop, below_prop};
ghost use Rattle.f_terms.specs.Read.{tree};
ghost use Rattle.f_terms.specs.ReadTerm.{count, term_of};
ghost use Rattle.f_terms.specs.Noted.{Beside};
ghost use Rattle.f_terms.specs.NotedProps.{beside_prop};
ghost use Rattle.f_terms.specs.NotedTerm.{noted_of};
ghost use Rattle.f_check.specs.Props.{closed_prop};

use f_terms::{FTerm, FType};
use idx_core::Span;

/// A closed term with its type by the typing rules of the source. The type of each of its parts keeps the limits on
/// types (own choice).
#[derive(Drop)]
pub struct Typed {
    pub(crate) term: FTerm,
    pub(crate) ty: FType,
    pub(crate) types: Vec<FType>,
    pub ghost closed: { IsClosed (term_of term) } by { closed_prop (term_of term) },
    pub ghost closed_type: { Closed (tree ty) } by { below_prop 0 (tree ty) },
    pub ghost few: { nodes (term_of term) ≤ 4294967295 },
    pub ghost accepted: { IsAccepted (term_of term) (tree ty) } by { accepted_prop (term_of term) (tree ty) },
    pub ghost table: { count term ≤ length types.items },
    pub ghost noted: { Beside (noted_of term types.items) NoTys } by { beside_prop (noted_of term types.items) NoTys },
}

/// A closed term of type `int` (own choice). The type of each of its parts keeps the limits on types.
#[derive(Drop)]
pub struct Program {
    pub(crate) term: FTerm,
    pub(crate) types: Vec<FType>,
    pub ghost closed: { IsClosed (term_of term) } by { closed_prop (term_of term) },
    pub ghost few: { nodes (term_of term) ≤ 4294967295 },
    pub ghost accepted: { IsAccepted (term_of term) TInt } by { accepted_prop (term_of term) TInt },
    pub ghost table: { count term ≤ length types.items },
    pub ghost noted: { Beside (noted_of term types.items) NoTys } by { beside_prop (noted_of term types.items) NoTys },
}

impl Typed {
    ghost use Rattle.std.specs.Prelude.{◌≡◌, ◌≢◌, MatchResult};
    ghost use Rattle.f_terms.specs.Tm.{span_of};
    ghost use Rattle.f_terms.specs.Read.{place};
    ghost use Rattle.f_terms.specs.ReadTerm.{spanned};
    ghost use Rattle.f_check.specs.Typed.{typed_term, typed_type, program_term};

    /// The term.
    pub fn term(&self) -> &FTerm
        ensures { result.now ≡ typed_term self.now }
    {
        &self.term
    }

    /// Its type.
    pub fn ty(&self) -> &FType
        ensures { result.now ≡ typed_type self.now }
    {
        &self.ty
    }

    /// The term as a program: refused where its type is not `int`, with the place of the term.
    pub fn program(self) -> Result<Program, (Typed, Span)>
        ensures { MatchResult result (λ p. (program_term p ≡ typed_term self) × (tree (typed_type self) ≡ TInt))
            (λ r. (r.0 ≡ self) × (place r.1 ≡ span_of (spanned (typed_term self))) × (tree (typed_type self) ≢ TInt)) }
    {
        match self.ty {
            FType::Int => Ok(Program {
                term: self.term,
                types: self.types,
            }),
            _ => {
                let span = self.term.node(self.term.count() - 1).span;
                Err((self, span))
            }
        }
    }
}

impl Program {
    ghost use Rattle.std.specs.Prelude.{◌≡◌};
    ghost use Rattle.f_check.specs.Typed.{program_term, program_types};

    /// The term.
    pub fn term(&self) -> &FTerm
        ensures { result.now ≡ program_term self.now }
    {
        &self.term
    }

    /// The types that the term doesn't write, by the numbers of its nodes.
    pub fn types(&self) -> &[FType]
        ensures { result.now ≡ program_types self.now }
    {
        &self.types
    }
}
