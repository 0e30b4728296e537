// Why there is no word code of a program.
ghost use Rattle.std.specs.Prelude.{◌≡◌};
ghost use Rattle.w_gen.specs.declared.error.BuildError.TheVariants as error;

use idx_core::OutOfMemory;

/// Why there is no word code of a program.
#[derive(Clone, Copy, Debug, PartialEq, Eq)]
pub enum BuildError {
    /// Memory was wanted and not had.
    OutOfMemory,
    /// A register, a field or the memory of the program is past its bound.
    TooLarge,
}

impl From<OutOfMemory> for BuildError {
    ghost from_gives = { λ _ e. e ≡ error.OutOfMemory };

    fn from(_: OutOfMemory) -> BuildError {
        BuildError::OutOfMemory
    }
}
