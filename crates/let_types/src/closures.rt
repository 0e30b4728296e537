// Which types are those of closures.
ghost use Rattle.std.specs.Prelude.{◌≡◌, ◌==◌, ◌+◌, ℕ, drop};
ghost use Rattle.c_terms.specs.Read.{ctree, ctys};
ghost use Rattle.let_types.specs.TypeTexts.{IsVariable, names_variable, one_names_variable, is_variable, only_first};
ghost use Rattle.let_types.specs.TypeTexts.{takes_hidden, is_hidden, are_closure, is_closure};

use c_terms::CType;

// The variable inside so many more binders.
fn deeper(variable: Option<u64>, by: u64) -> Option<u64>
    ensures { (v : ℕ) → IsVariable variable v → IsVariable result (v + by) }
{
    match variable {
        Some(v) => v.checked_add(by),
        None => None,
    }
}

fn is_at(i: u64, variable: Option<u64>) -> bool
    ensures { (v : ℕ) → IsVariable variable v → result ≡ (i == v) }
{
    match variable {
        Some(v) => i == v,
        None => false,
    }
}

// Whether a type names a variable.
#[cycle(names)]
fn names_variable(t: &CType, variable: Option<u64>) -> bool
    ensures { (v : ℕ) → IsVariable variable v → result ≡ names_variable v (ctree t.now) }
{
    match t {
        CType::Int => false,
        CType::Var(i) => is_at(*i, variable),
        CType::Tuple(ts) => one_names_variable(ts, 0, variable),
        CType::Code { owes, args } => one_names_variable(args, 0, deeper(variable, *owes)),
        CType::Exists(t) => names_variable(t, deeper(variable, 1)),
        CType::Ref(t) => names_variable(t, variable),
    }
}

// Whether one of several types does, from a place on.
#[cycle(names)]
fn one_names_variable(ts: &[CType], from: usize, variable: Option<u64>) -> bool
    ensures { (v : ℕ) → IsVariable variable v → result ≡ one_names_variable v (ctys (drop from ts.now)) }
{
    for i in from..ts.len() {
        if names_variable(&ts[i], variable) {
            return true;
        }
    }
    false
}

fn is_variable(t: &CType, variable: u64) -> bool
    ensures { result ≡ is_variable variable (ctree t.now) }
{
    match t {
        CType::Var(i) => *i == variable,
        _ => false,
    }
}

// Whether the variable is the first of several types, and no other one names it.
fn only_first(ts: &[CType], variable: u64) -> bool
    ensures { result ≡ only_first variable (ctys ts.now) }
{
    if ts.is_empty() || !is_variable(&ts[0], variable) {
        return false;
    }
    !one_names_variable(ts, 1, Some(variable))
}

fn takes_hidden(t: &CType) -> bool
    ensures { result ≡ takes_hidden (ctree t.now) }
{
    match t {
        CType::Code { owes, args } => only_first(args, *owes),
        _ => false,
    }
}

// Whether these are the type of a closure's code, and the type of its environment.
fn are_closure(ts: &[CType]) -> bool
    ensures { result ≡ are_closure (ctys ts.now) }
{
    if ts.len() != 2 {
        return false;
    }
    let takes = takes_hidden(&ts[0]);
    takes && is_variable(&ts[1], 0)
}

/// Whether `some` of this type is the type of a closure.
pub(crate) fn is_closure(t: &CType) -> bool
    ensures { result ≡ is_closure (ctree t.now) }
{
    match t {
        CType::Tuple(ts) => are_closure(ts),
        _ => false,
    }
}
