// Why a source text is refused.
ghost use Rattle.std.specs.Prelude.{◌≡◌};
ghost use Rattle.f_terms.specs.declared.fault.FFault.TheVariants as fault;

use idx_core::{OutOfMemory, Span};
use std::alloc::AllocFailed;

/// The codes of the faults of a source text: `E` for what the language refuses, `L` for a limit that is passed.
#[derive(Clone, Copy, Debug, PartialEq, Eq, Drop)]
pub enum Code {
    /// A byte begins no token.
    E01,
    /// A number is out of range.
    E02,
    /// A token that no program can have at its place.
    E03,
    /// The text ends before the program does.
    E04,
    /// A value name without a binder.
    E05,
    /// A type name without a binder.
    E06,
    /// What is applied is not a function.
    E07,
    /// The argument has another type than the function takes.
    E08,
    /// What is applied to a type is not polymorphic.
    E09,
    /// What is projected is not a tuple.
    E10,
    /// The tuple has no such field.
    E11,
    /// An operand, or the test of an `if0`, is not an integer.
    E12,
    /// The branches of an `if0` have two types.
    E13,
    /// The body of a function has not the declared type.
    E14,
    /// The program is not an integer.
    E15,
    /// The shape of a pack, or the type of what is opened, is not an existential.
    E16,
    /// What is packed has not the type that the pack's shape and hidden type say.
    E17,
    /// The name of the hidden type is free in the type of the last part of an open.
    E18,
    /// A program that makes, reads or assigns cells is not evaluated.
    E19,
    /// What is read or assigned is not a reference.
    E21,
    /// What is assigned has another type than the cell holds.
    E22,
    /// The text has more than 16777216 bytes.
    L1,
    /// More than 200 constructs are open.
    L2,
    /// The term has more than 100000 nodes.
    L3,
    /// A type is deeper than 200.
    L4,
    /// A type has more than 10000 nodes.
    L5,
}

/// Why a call on a source gave no answer.
#[derive(Clone, Copy, Debug, PartialEq, Eq, Drop)]
pub enum FFault {
    /// Memory was wanted and not had.
    Memory,
    /// The source is refused: by which rule, and at which place.
    Refused { code: Code, span: Span },
}

impl From<OutOfMemory> for FFault {
    ghost from_gives = { λ _ e. e ≡ fault.Memory };

    fn from(_: OutOfMemory) -> FFault {
        FFault::Memory
    }
}

impl<T: Drop> From<AllocFailed<T>> for FFault {
    ghost from_gives = { λ _ e. e ≡ fault.Memory };

    fn from(_: AllocFailed<T>) -> FFault {
        FFault::Memory
    }
}
