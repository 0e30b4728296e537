// Why the walk over a term stops early.
ghost use Rattle.std.specs.Prelude.{◌≡◌, IfOk};
ghost use Rattle.f_check.specs.Told.{fault_of, Mentions};
ghost use Rattle.f_check.specs.declared.failure.Failure.TheVariants as failure;

use crate::mismatch::Mismatch;
use f_terms::{Code, FFault};
use idx_core::{OutOfMemory, Span};
use std::alloc::AllocFailed;

/// Why a walk gave no type: a fault of typing, with what is at odds in it.
#[derive(Drop)]
pub(crate) enum Failure {
    Memory,
    Refused {
        code: Code,
        span: Span,
        mismatch: Option<Mismatch>,
    },
}

impl From<OutOfMemory> for Failure {
    ghost from_gives = { λ _ e. e ≡ failure.Memory };

    fn from(_: OutOfMemory) -> Failure {
        Failure::Memory
    }
}

impl<T: Drop> From<AllocFailed<T>> for Failure {
    ghost from_gives = { λ _ e. e ≡ failure.Memory };

    fn from(_: AllocFailed<T>) -> Failure {
        Failure::Memory
    }
}

// The fault alone.
pub(crate) fn fault_alone(failure: Failure) -> FFault
    ensures { result ≡ fault_of failure }
{
    match failure {
        Failure::Memory => FFault::Memory,
        Failure::Refused { code, span, .. } => FFault::Refused { code, span },
    }
}

// What is at odds alone.
pub(crate) fn mismatch_alone(failure: Failure) -> Result<Option<Mismatch>, OutOfMemory>
    ensures { IfOk result (Mentions failure) }
{
    match failure {
        Failure::Memory => Err(OutOfMemory),
        Failure::Refused { mismatch, .. } => Ok(mismatch),
    }
}
