// The binding of names in types.
ghost use Rattle.std.specs.Prelude.{◌≡◌, MatchResult, OnOk};
ghost use Rattle.idx_core.specs.Names.{Name};
ghost use Rattle.f_terms.specs.Ty.{TArrow, TAll, TSome, TRef};
ghost use Rattle.f_terms.specs.Read.{tree};
ghost use Rattle.f_grammar.specs.Read.{type_of};
ghost use Rattle.f_grammar.specs.Scope.{spelled, TypeOf, type_uses};
ghost use Rattle.f_parser.specs.Resolve.{StopsAt};
ghost use Rattle.f_parser.specs.declared.resolve.Unresolved.TheVariants as stopped;

use f_grammar::RawType;
use f_terms::FType;
use idx_core::{Names, OutOfMemory, Span};
use std::alloc::{AllocError, AllocFailed, Global};

/// Why the names of a tree are not resolved: the place of the first name that has no binder.
#[derive(Debug, Drop)]
pub enum Unresolved {
    Memory,
    Value(Span),
    Type(Span),
}

impl From<OutOfMemory> for Unresolved {
    ghost from_gives = { λ _ e. e ≡ stopped.Memory };

    fn from(_: OutOfMemory) -> Unresolved {
        Unresolved::Memory
    }
}

impl From<AllocError> for Unresolved {
    ghost from_gives = { λ _ e. e ≡ stopped.Memory };

    fn from(_: AllocError) -> Unresolved {
        Unresolved::Memory
    }
}

impl<T: Drop> From<AllocFailed<T>> for Unresolved {
    ghost from_gives = { λ _ e. e ≡ stopped.Memory };

    fn from(_: AllocFailed<T>) -> Unresolved {
        Unresolved::Memory
    }
}

/// The bytes of a text at a place, as far as it has them.
pub fn spelling<'a>(text: &'a [u8], span: Span) -> &'a [u8]
    ensures { result.now ≡ spelled text.now span }
{
    let end = (span.end as usize).min(text.len());
    let start = (span.start as usize).min(end);
    &text[start..end]
}

fn arrow(alloc: Global, a: FType, b: FType) -> Result<FType, Unresolved>
    ensures { MatchResult result (λ t. tree t ≡ TArrow (tree a) (tree b)) (λ e. e ≡ stopped.Memory) }
{
    Ok(FType::Arrow(Box::new(alloc, a)?, Box::new(alloc, b)?))
}

fn all(alloc: Global, body: FType) -> Result<FType, Unresolved>
    ensures { MatchResult result (λ t. tree t ≡ TAll (tree body)) (λ e. e ≡ stopped.Memory) }
{
    Ok(FType::All(Box::new(alloc, body)?))
}

fn some(alloc: Global, body: FType) -> Result<FType, Unresolved>
    ensures { MatchResult result (λ t. tree t ≡ TSome (tree body)) (λ e. e ≡ stopped.Memory) }
{
    Ok(FType::Exists(Box::new(alloc, body)?))
}

fn reference(alloc: Global, held: FType) -> Result<FType, Unresolved>
    ensures { MatchResult result (λ t. tree t ≡ TRef (tree held)) (λ e. e ≡ stopped.Memory) }
{
    Ok(FType::Ref(Box::new(alloc, held)?))
}

/// A type with its names resolved, where these type names are in scope. They are as before where the answer is a
/// type.
pub fn type_in_scope(
    alloc: Global,
    text: &[u8],
    ty: &RawType,
    types: &mut Names,
) -> Result<FType, Unresolved>
    ensures kept { OnOk result (types.new ≡ types.old) }
    ensures right { MatchResult result (λ t. TypeOf text.now types.old (type_of ty.now) (tree t))
        (λ e. StopsAt text.now (type_uses text.now types.old (type_of ty.now)) e) }
{
    match ty {
        RawType::Int => Ok(FType::Int),
        RawType::Name(span) => match types.find(spelling(text, *span)) {
            Some(place) => Ok(FType::Var(place)),
            None => Err(Unresolved::Type(*span)),
        },
        RawType::Tuple(parts) => {
            let mut found = Vec::new(alloc);
            for part in parts {
                found.push(type_in_scope(alloc, text, part, types)?)?;
            }
            Ok(FType::Tuple(found))
        }
        RawType::Arrow(a, b) => {
            let left = type_in_scope(alloc, text, a, types)?;
            let right = type_in_scope(alloc, text, b, types)?;
            let whole = arrow(alloc, left, right)?;
            Ok(whole)
        }
        RawType::All(name, body) => {
            types.push(spelling(text, *name))?;
            let inner = type_in_scope(alloc, text, body, types)?;
            types.pop();
            let whole = all(alloc, inner)?;
            Ok(whole)
        }
        RawType::Exists(name, body) => {
            types.push(spelling(text, *name))?;
            let inner = type_in_scope(alloc, text, body, types)?;
            types.pop();
            let whole = some(alloc, inner)?;
            Ok(whole)
        }
        RawType::Ref(held) => {
            let inner = type_in_scope(alloc, text, held, types)?;
            let whole = reference(alloc, inner)?;
            Ok(whole)
        }
    }
}
