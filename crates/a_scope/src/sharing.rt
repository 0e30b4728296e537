// Variables that share the type of one in scope.
ghost use Rattle.std.specs.Prelude.{◌≡◌, ℕ, ◌+◌, ◌<◌, ◌≤◌, ◌⊎◌, Some, MatchOption};
ghost use Rattle.a_terms.specs.Tree.{AProg, ATy};
ghost use Rattle.a_terms.specs.Typing.{filled_of};
ghost use Rattle.a_terms.specs.NodeTrees.{a_value};
ghost use Rattle.a_scope.specs.Scope.{HasEntry, Held, bare, filled_to};

use crate::scope::Entry;
use a_terms::{ABase, AValue};

// The variable that a value is, if it is one with nothing around it.
fn bare_variable(v: &AValue) -> Option<u64>
    ensures { result ≡ bare (a_value v.now) }
{
    if v.wraps.len() > 0 {
        return None;
    }
    match v.base {
        ABase::Var(n) => Some(n),
        ABase::Int(_) | ABase::Label(_) | ABase::Data(_) => None,
    }
}

/// The entry of a value that is a variable in scope, with nothing around it. None of any other value.
pub fn entry_of<'b, 'a>(vars: &'b [Entry<'a>], v: &AValue) -> Option<&'b Entry<'a>>
    ensures { MatchOption result (¬ HasEntry vars.now (a_value v.now))
        (λ e. (p : AProg) (k : ℕ) → Held p k vars.now (a_value v.now) e.now) }
{
    let n = bare_variable(v)?;
    let count = vars.len();
    if n < count as u64 {
        Some(&vars[count - 1 - n as usize])
    } else {
        None
    }
}

/// How many fields, from the first on, are initialised once field i is, where `filled` are. None where they are not the
/// first ones: i is 0, or past the next field.
pub fn filled_then(filled: u64, i: u64) -> Option<u64>
    ensures { MatchOption result ((i ≡ 0) ⊎ (filled + 1 < i))
        (λ m. (0 < i) × (i ≤ filled + 1) × ((t : ATy) → filled_to m t ≡ filled_of i (Some (filled_to filled t)))) }
{
    if i == 0 {
        return None;
    }
    if i <= filled {
        return Some(filled);
    }
    if i - 1 == filled {
        return Some(i);
    }
    None
}
