// Why nothing is made or shown of a text.
ghost use Rattle.std.specs.Prelude.{◌≡◌};
ghost use Rattle.talc_core.specs.declared.refusal.Refusal.TheVariants as refusal;
ghost use Rattle.talc_core.specs.Failures.{refusal_of, refusal_of_assembly};

use crate::fault::Fault;
use f_terms::{FFault, FTerm};
use idx_core::OutOfMemory;
use native::NativeError;
use std::alloc::AllocError;
use std::error::Error;
use std::fmt;
use t_terms::{TFault, TProgram};

/// Why nothing is made or shown of a text (own choice).
#[derive(Clone, Copy, Debug, PartialEq, Eq, Drop)]
pub enum Refusal {
    /// The text has this first fault.
    Fault(Fault),
    /// Memory was wanted and not had.
    Memory,
}

impl fmt::Display for Refusal {
    ghost use Rattle.std.specs.Prelude.{Some};
    ghost use Rattle.talc_core.specs.Failures.{refusal_text};

    ghost output = { λ r. Some (refusal_text r) };

    fn fmt<W: fmt::Write>(&self, f: &mut fmt::Formatter<W>) -> fmt::Result {
        match self {
            Refusal::Fault(fault) => write!(f, "{fault}"),
            Refusal::Memory => write!(f, "out of memory"),
        }
    }
}

impl Error for Refusal {}

impl From<OutOfMemory> for Refusal {
    ghost from_gives = { λ _ e. e ≡ refusal.Memory };

    fn from(_: OutOfMemory) -> Refusal {
        Refusal::Memory
    }
}

impl From<AllocError> for Refusal {
    ghost from_gives = { λ _ e. e ≡ refusal.Memory };

    fn from(_: AllocError) -> Refusal {
        Refusal::Memory
    }
}

// A program that is too large for an executable file is past an internal bound, which is told as want of memory.
impl From<NativeError> for Refusal {
    ghost from_gives = { λ _ e. e ≡ refusal.Memory };

    fn from(_: NativeError) -> Refusal {
        Refusal::Memory
    }
}

impl From<FFault> for Refusal {
    ghost from_gives = { λ f e. e ≡ refusal_of f };

    fn from(fault: FFault) -> Refusal {
        match fault {
            FFault::Refused { code, span } => Refusal::Fault(Fault::Source(code, span)),
            FFault::Memory => Refusal::Memory,
        }
    }
}

impl From<TFault> for Refusal {
    ghost from_gives = { λ f e. e ≡ refusal_of_assembly f };

    fn from(fault: TFault) -> Refusal {
        match fault {
            TFault::Refused { code, span } => Refusal::Fault(Fault::Tal(code, span)),
            TFault::Memory => Refusal::Memory,
        }
    }
}

// A term that the checker refuses comes back with its fault; of the two the fault is told.
impl From<(FTerm, FFault)> for Refusal {
    ghost from_gives = { λ r e. e ≡ refusal_of r.1 };

    fn from(refused: (FTerm, FFault)) -> Refusal {
        Refusal::from(refused.1)
    }
}

// So does a program.
impl From<(TProgram, TFault)> for Refusal {
    ghost from_gives = { λ r e. e ≡ refusal_of_assembly r.1 };

    fn from(refused: (TProgram, TFault)) -> Refusal {
        Refusal::from(refused.1)
    }
}
