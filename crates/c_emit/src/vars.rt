// Where a type variable stands.
ghost use Rattle.std.specs.Prelude.{◌≡◌, ℕ, ◌+◌, IfOk};
ghost use Rattle.calc_core.specs.Levels as S;
ghost use Rattle.c_rules.specs.Know as W;
ghost use Rattle.c_emit.specs.Names.{side, renaming, plain};

use crate::names::{Renaming, Side};
use idx_core::{OutOfMemory, sum};

/// The level of a variable.
pub fn level_of(depth: u64, i: u64) -> u64
    ensures { result ≡ S.level_of depth i }
{
    if i < depth { depth - 1 - i } else { 0 }
}

// Where a type variable stands, in no call.
fn plain_var(f: &Side, i: u64) -> Result<u64, OutOfMemory>
    ensures { IfOk result (λ r. r ≡ plain (side f.now) i) }
{
    if i < f.owes {
        Ok(i)
    } else {
        let at = sum(f.owes, f.kept.above(level_of(f.depth, i - f.owes)))?;
        Ok(at)
    }
}

/// Where a type variable stands. An error is want of memory.
pub fn side_var(f: &Side, i: u64) -> Result<u64, OutOfMemory>
    ensures { IfOk result (λ r. r ≡ W.side_var (side f.now) i) }
{
    let at = plain_var(f, i)?;
    if f.calling {
        let at = sum(at, 1)?;
        Ok(at)
    } else {
        Ok(at)
    }
}

/// Where a type variable outside the code stands. An error is want of memory.
pub fn outer_var(f: &Side, j: u64) -> Result<u64, OutOfMemory>
    ensures { IfOk result (λ r. r ≡ W.outer_var (side f.now) j) }
{
    let at = sum(f.owes, f.kept.above(level_of(f.depth, j)))?;
    Ok(at)
}

/// Where a type variable of a type stands. An error is want of memory.
pub fn name(names: &Renaming, i: u64) -> Result<u64, OutOfMemory>
    ensures { IfOk result (λ r. r ≡ renaming names.now i) }
{
    match names {
        Renaming::Here { side, raise } => {
            let j = sum(*raise, i)?;
            let at = side_var(side, j)?;
            Ok(at)
        }
        Renaming::Outside { side, raise } => {
            let j = sum(*raise, i)?;
            let at = outer_var(side, j)?;
            Ok(at)
        }
        Renaming::Under { owes, around } => {
            if i < *owes {
                Ok(i)
            } else {
                let at = name(around, i - *owes)?;
                let at = sum(at, 1)?;
                let at = sum(*owes, at)?;
                Ok(at)
            }
        }
        Renaming::Within { around } => {
            if i < 1 {
                Ok(i)
            } else {
                let at = name(around, i - 1)?;
                let at = sum(1, at)?;
                Ok(at)
            }
        }
    }
}
