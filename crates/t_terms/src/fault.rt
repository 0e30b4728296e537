// Why an assembly text is refused.

ghost use Rattle.std.specs.Prelude.{◌≡◌};
ghost use Rattle.t_terms.specs.declared.fault.TFault.TheVariants as fault;

use idx_core::{OutOfMemory, Span};
use std::alloc::{AllocError, AllocFailed};

/// The codes of the faults of an assembly text, in the order of its checks (own choice): `T` for what the
/// language refuses, `M` for a limit that is passed.
#[derive(Clone, Copy, Debug, PartialEq, Eq, Drop)]
pub enum TCode {
    /// A byte begins no token.
    T01,
    /// A number is out of range.
    T02,
    /// A token, or the end of the text, that no program can have at its place.
    T03,
    /// A second definition of a label.
    T04,
    /// A label without a definition.
    T05,
    /// A type name without a binder.
    T06,
    /// A register stands twice in one file type.
    T07,
    /// A register has no type.
    T08,
    /// A register or a value is not an integer.
    T09,
    /// What is loaded from or stored to is not a tuple.
    T10,
    /// The tuple has no such field.
    T11,
    /// The field that is loaded is not initialised.
    T12,
    /// The stored value has another type than the field.
    T13,
    /// What is unpacked is not an existential package.
    T14,
    /// The value does not fit the type that its package is given.
    T15,
    /// The target is not code that owes no types.
    T16,
    /// A value takes more types than it owes.
    T17,
    /// The registers do not fit those that the target takes.
    T18,
    /// Register 1 is not an integer at `halt`.
    T19,
    /// The first block takes a type or a register.
    T20,
    /// More than 2000 constructs are open.
    M1,
}

/// Why a call on an assembly text or program gave no answer.
#[derive(Clone, Copy, Debug, PartialEq, Eq, Drop)]
pub enum TFault {
    /// Memory was wanted and not had.
    Memory,
    /// The text is refused: by which rule, and at which place.
    Refused { code: TCode, span: Span },
}

impl From<OutOfMemory> for TFault {
    ghost from_gives = { λ _ e. e ≡ fault.Memory };

    fn from(_: OutOfMemory) -> TFault {
        TFault::Memory
    }
}

impl From<AllocError> for TFault {
    ghost from_gives = { λ _ e. e ≡ fault.Memory };

    fn from(_: AllocError) -> TFault {
        TFault::Memory
    }
}

impl<T: Drop> From<AllocFailed<T>> for TFault {
    ghost from_gives = { λ _ e. e ≡ fault.Memory };

    fn from(_: AllocFailed<T>) -> TFault {
        TFault::Memory
    }
}
