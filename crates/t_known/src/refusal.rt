// Why a program is not accepted, with what is at odds.
ghost use Rattle.std.specs.Prelude.{◌≡◌, Err, length};
ghost use Rattle.t_known.specs.Refusals.{IsBelow, IsMismatchOf, fault_of};
ghost use Rattle.t_known.specs.declared.refusal.Refusal.TheVariants as refusal;

use crate::mismatch::Mismatch;
use crate::odds::{Odds, told};
use idx_core::{OutOfMemory, Span};
use t_intern::Types;
use t_terms::{TCode, TFault};

/// Why the checker does not accept a program.
#[derive(Drop)]
pub enum Refusal {
    /// Memory was wanted and not had.
    Memory,
    /// By which rule, and at which place.
    Refused { code: TCode, span: Span },
    /// The same, with what is at odds.
    AtOdds { code: TCode, span: Span, odds: Odds },
}

impl From<OutOfMemory> for Refusal {
    ghost from_gives = { λ _ e. e ≡ refusal.Memory };

    fn from(_: OutOfMemory) -> Refusal {
        Refusal::Memory
    }
}

impl Refusal {
    /// What callers see of it where they do not ask what is at odds.
    pub fn fault(self) -> TFault
        ensures { result ≡ fault_of self }
    {
        match self {
            Refusal::Memory => TFault::Memory,
            Refusal::Refused { code, span } => TFault::Refused { code, span },
            Refusal::AtOdds { code, span, .. } => TFault::Refused { code, span },
        }
    }

    /// What is at odds, by the table whose numbers it has: nothing where one of the types has more than 100,000 nodes.
    /// An error is want of memory.
    pub fn mismatch(self, types: &Types) -> Result<Option<Mismatch>, OutOfMemory>
        requires { IsBelow (length types.now) self }
        ensures { IsMismatchOf types.now self result }
    {
        match self {
            Refusal::Memory => Err(OutOfMemory),
            Refusal::Refused { .. } => Ok(None),
            Refusal::AtOdds { odds, .. } => told(types, odds),
        }
    }
}

/// The refusal that says no more than its code.
pub fn refused<T>(code: TCode, span: Span) -> Result<T, Refusal>
    ensures { result ≡ Err (refusal.Refused code span) }
{
    Err(Refusal::Refused { code, span })
}

/// The refusal with what is at odds.
pub fn at_odds<T>(code: TCode, span: Span, odds: Odds) -> Result<T, Refusal>
    ensures { result ≡ Err (refusal.AtOdds code span odds) }
{
    Err(Refusal::AtOdds { code, span, odds })
}
