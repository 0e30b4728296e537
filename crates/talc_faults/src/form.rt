// The form of the type that is found at a fault of a source text.
ghost use Rattle.std.specs.Prelude.{◌≡◌};
ghost use Rattle.f_terms.specs.Read.{tree};
ghost use Rattle.f_check.specs.Told.{read};
ghost use Rattle.talc_faults.specs.Form.{form_of, found_form};

use crate::Form;
use f_check::Mismatch;
use f_terms::FType;

/// The form of a type.
pub fn form_of(ty: &FType) -> Form
    ensures { result ≡ form_of (tree ty.now) }
{
    match ty {
        FType::Int => Form::Integer,
        FType::Var(_) => Form::Variable,
        FType::Arrow(_, _) => Form::Function,
        FType::All(_) => Form::Polymorphic,
        FType::Tuple(_) => Form::Tuple,
        FType::Exists(_) => Form::Package,
        FType::Ref(_) => Form::Reference,
    }
}

/// The form of the type that is found, where types are at odds.
pub fn found_form(mismatch: &Option<Mismatch>) -> Form
    ensures { result ≡ found_form (read mismatch.now) }
{
    match mismatch {
        Some(mismatch) => form_of(&mismatch.found),
        None => Form::Untold,
    }
}
