// Steps into types, and paths that are found by a walk.
ghost use Rattle.std.specs.Prelude.{◌≡◌, ◌∷◌, [], IfOk, Some};
ghost use Rattle.type_path.specs.Paths.{inside, read};

use idx_core::OutOfMemory;
use std::alloc::Global;

/// A step from a type to a part of it.
#[derive(Clone, Copy, Drop)]
pub enum Step {
    /// Of a function type, what it takes.
    Argument,
    /// Of a function type, what it gives.
    Result,
    /// What stands under `all` or `some`.
    Body,
    /// Of a reference type, what its cells hold.
    Cell,
    /// The type of a field of a tuple, by its number: the first is 1 in the source, and 0 in assembly.
    Field(u64),
    /// Whether this field of an assembly tuple is initialised.
    Flag(u64),
    /// Of a code type, the type that it wants of a register.
    Register(u64),
}

// The way from the whole to a part, where one from a part on is found.
pub(crate) fn inside(found: Option<Vec<Step>>, step: Step) -> Result<Option<Vec<Step>>, OutOfMemory>
    ensures { IfOk result (λ r. read r ≡ inside step (read found)) }
{
    match found {
        Some(path) => {
            let mut path = path;
            path.push(step)?;
            Ok(Some(path))
        }
        None => Ok(None),
    }
}

// The path of one step.
pub(crate) fn one(alloc: Global, step: Step) -> Result<Option<Vec<Step>>, OutOfMemory>
    ensures { IfOk result (λ r. read r ≡ Some (step ∷ [])) }
{
    let path = Vec::from_slice(alloc, &[step])?;
    Ok(Some(path))
}
