// Which types are those of closures.
ghost use Rattle.std.specs.Prelude.{◌≡◌, drop, IfOk};
ghost use Rattle.a_terms.specs.Read.{afields, atree, atrees};
ghost use Rattle.a_notation.specs.Closures.{are_of_closure, is_first, is_of_closure, is_variable};
ghost use Rattle.a_notation.specs.Closures.{names_fields, names_type, names_types, takes_hidden};

use a_terms::AType;
use idx_core::{OutOfMemory, sum};

// Whether a type names a variable.
#[cycle(naming)]
fn names(t: &AType, i: u64) -> Result<bool, OutOfMemory>
    ensures { IfOk result (λ b. b ≡ names_type i (atree t.now)) }
{
    match t {
        AType::Int => Ok(false),
        AType::Var(j) => Ok(*j == i),
        AType::Tuple(fields) => {
            let named = any_field_names(fields, i)?;
            Ok(named)
        }
        AType::Code { owes, args } => {
            let inner = sum(i, *owes)?;
            let named = any_names(args, 0, inner)?;
            Ok(named)
        }
        AType::Exists(body) => {
            let inner = sum(i, 1)?;
            let named = names(body, inner)?;
            Ok(named)
        }
    }
}

// Whether one of the types from a place on names a variable.
#[cycle(naming)]
fn any_names(ts: &[AType], from: usize, i: u64) -> Result<bool, OutOfMemory>
    ensures { IfOk result (λ b. b ≡ names_types i (atrees (drop from ts.now))) }
{
    for at in from..ts.len() {
        if names(&ts[at], i)? {
            return Ok(true);
        }
    }
    Ok(false)
}

#[cycle(naming)]
fn any_field_names(fields: &[(AType, bool)], i: u64) -> Result<bool, OutOfMemory>
    ensures { IfOk result (λ b. b ≡ names_fields i (afields fields.now)) }
{
    for field in fields {
        if names(&field.0, i)? {
            return Ok(true);
        }
    }
    Ok(false)
}

fn is_the_variable(t: &AType, i: u64) -> bool
    ensures { result ≡ is_variable i (atree t.now) }
{
    match t {
        AType::Var(j) => *j == i,
        AType::Int | AType::Tuple(_) | AType::Code { .. } | AType::Exists(_) => false,
    }
}

// Whether the first of the types is the variable, which the others don't name.
fn begin_with(ts: &[AType], i: u64) -> Result<bool, OutOfMemory>
    ensures { IfOk result (λ b. b ≡ is_first i (atrees ts.now)) }
{
    if ts.is_empty() {
        return Ok(false);
    }
    if !is_the_variable(&ts[0], i) {
        return Ok(false);
    }
    let named = any_names(ts, 1, i)?;
    Ok(!named)
}

fn takes_the_hidden(t: &AType) -> Result<bool, OutOfMemory>
    ensures { IfOk result (λ b. b ≡ takes_hidden (atree t.now)) }
{
    match t {
        AType::Code { owes, args } => {
            let taken = begin_with(args, *owes)?;
            Ok(taken)
        }
        AType::Int | AType::Var(_) | AType::Tuple(_) | AType::Exists(_) => Ok(false),
    }
}

// Whether these are two initialised fields, code and its environment.
fn are_closure(fields: &[(AType, bool)]) -> Result<bool, OutOfMemory>
    ensures { IfOk result (λ b. b ≡ are_of_closure (afields fields.now)) }
{
    if fields.len() != 2 {
        return Ok(false);
    }
    let code = &fields[0];
    let environment = &fields[1];
    if !code.1 || !environment.1 || !is_the_variable(&environment.0, 0) {
        return Ok(false);
    }
    let taken = takes_the_hidden(&code.0)?;
    Ok(taken)
}

/// Whether a package of this type is a closure: the type is a tuple of code, which takes the hidden type first and
/// names it nowhere else, and of an environment of that type. An error is want of memory.
pub(crate) fn is_closure(t: &AType) -> Result<bool, OutOfMemory>
    ensures { IfOk result (λ b. b ≡ is_of_closure (atree t.now)) }
{
    match t {
        AType::Tuple(fields) => {
            let closure = are_closure(fields)?;
            Ok(closure)
        }
        AType::Int | AType::Var(_) | AType::Code { .. } | AType::Exists(_) => Ok(false),
    }
}
