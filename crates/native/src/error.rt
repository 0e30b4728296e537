// Why there is no native code of a program.

use idx_core::OutOfMemory;
use w_gen::BuildError;
use x_program::Refused;

/// Why there is no native code of a program.
#[derive(Clone, Copy, Debug, PartialEq, Eq)]
pub enum NativeError {
    /// Memory was wanted and not had.
    OutOfMemory,
    /// A register, a field, the code or the memory of the program is past its bound.
    TooLarge,
}

impl From<OutOfMemory> for NativeError {
    ghost use Rattle.std.specs.Prelude.{◌≡◌};
    ghost use Rattle.native.specs.declared.error.NativeError.TheVariants as why;

    ghost from_gives = { λ _ e. e ≡ why.OutOfMemory };

    fn from(_: OutOfMemory) -> NativeError {
        NativeError::OutOfMemory
    }
}

impl From<BuildError> for NativeError {
    ghost use Rattle.std.specs.Prelude.{◌≡◌};
    ghost use Rattle.w_gen.specs.declared.error.BuildError.TheVariants as of;
    ghost use Rattle.native.specs.declared.error.NativeError.TheVariants as why;

    ghost from_gives = { λ given e. e ≡ why.TooLarge → given ≡ of.TooLarge };

    fn from(error: BuildError) -> NativeError {
        match error {
            BuildError::OutOfMemory => NativeError::OutOfMemory,
            BuildError::TooLarge => NativeError::TooLarge,
        }
    }
}

impl From<Refused> for NativeError {
    ghost use Rattle.std.specs.Prelude.{◌≡◌};
    ghost use Rattle.x_program.specs.declared.file.Refused.TheVariants as of;
    ghost use Rattle.native.specs.declared.error.NativeError.TheVariants as why;

    ghost from_gives = { λ given e. e ≡ why.TooLarge → given ≡ of.TooLarge };

    fn from(error: Refused) -> NativeError {
        match error {
            Refused::OutOfMemory => NativeError::OutOfMemory,
            Refused::TooLarge => NativeError::TooLarge,
        }
    }
}
