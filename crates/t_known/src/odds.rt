// What is at odds in a fault of types, where the types have the numbers of a table; and the same with the types, for
// whoever asks.
ghost use Rattle.std.specs.Prelude.{◌≡◌, ◌<◌, IfOk, IfSome, length, option_map};
ghost use Rattle.t_types.specs.Read.{tree};
ghost use Rattle.t_intern.specs.Nodes.{at};
ghost use Rattle.t_rules.specs.Mismatch.{all_few, told};
ghost use Rattle.t_known.specs.ReadMismatch.{mismatch as mismatch_tree, mismatch_or_none};
ghost use Rattle.t_known.specs.Refusals.{odds_at, OddsBelow};

use crate::mismatch::Mismatch;
use crate::small::is_small;
use idx_core::OutOfMemory;
use t_intern::Types;
use t_types::TType;

/// What is at odds in a fault of types, where so many type names are in scope. Types stand by their numbers, so it
/// takes no memory to say it.
#[derive(Clone, Copy)]
pub enum Odds {
    /// A value has another type than the one that is wanted.
    Types {
        wanted: u64,
        found: u64,
        names: u64,
    },
    /// A package is given a type that is no package type.
    NoPackage {
        found: u64,
        names: u64,
    },
    /// A register that is wanted has no type, or one that does not fit.
    Register {
        register: u64,
        wanted: u64,
        found: Option<u64>,
        names: u64,
    },
}

// Whether each type in it has few nodes.
fn all_small(types: &Types, odds: Odds) -> bool
    requires { OddsBelow (length types.now) odds }
    ensures { result ≡ all_few (odds_at types.now odds) }
{
    match odds {
        Odds::Types { wanted, found, .. } => is_small(types, wanted) && is_small(types, found),
        Odds::NoPackage { found, .. } => is_small(types, found),
        Odds::Register {
            wanted,
            found: None,
            ..
        } => is_small(types, wanted),
        Odds::Register {
            wanted,
            found: Some(found),
            ..
        } => is_small(types, wanted) && is_small(types, found),
    }
}

// The type of a number, or none.
fn found_type(types: &Types, found: Option<u64>) -> Result<Option<TType>, OutOfMemory>
    requires { IfSome found (λ n. n < length types.now) }
    ensures { IfOk result (λ t. option_map tree t ≡ option_map (at types.now) found) }
{
    match found {
        Some(n) => {
            let t = types.tree(n)?;
            Ok(Some(t))
        }
        None => Ok(None),
    }
}

// The same with the types.
fn mismatch(types: &Types, odds: Odds) -> Result<Mismatch, OutOfMemory>
    requires { OddsBelow (length types.now) odds }
    ensures { IfOk result (λ m. mismatch_tree m ≡ odds_at types.now odds) }
{
    match odds {
        Odds::Types {
            wanted,
            found,
            names,
        } => {
            let wanted = types.tree(wanted)?;
            let found = types.tree(found)?;
            Ok(Mismatch::Types {
                wanted,
                found,
                names,
            })
        }
        Odds::NoPackage { found, names } => {
            let found = types.tree(found)?;
            Ok(Mismatch::NoPackage { found, names })
        }
        Odds::Register {
            register,
            wanted,
            found,
            names,
        } => {
            let wanted = types.tree(wanted)?;
            let found = found_type(types, found)?;
            Ok(Mismatch::Register {
                register,
                wanted,
                found,
                names,
            })
        }
    }
}

// What is said of it: nothing where one of the types has more nodes.
pub(crate) fn told(types: &Types, odds: Odds) -> Result<Option<Mismatch>, OutOfMemory>
    requires { OddsBelow (length types.now) odds }
    ensures { IfOk result (λ m. mismatch_or_none m ≡ told (odds_at types.now odds)) }
{
    if !all_small(types, odds) {
        return Ok(None);
    }
    let mismatch = mismatch(types, odds)?;
    Ok(Some(mismatch))
}
