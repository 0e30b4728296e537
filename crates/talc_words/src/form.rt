// The forms of a program that can be shown.
ghost use Rattle.std.specs.Prelude.{◌≡◌};
ghost use Rattle.talc_words.specs.Command.{form_named, with_types};

/// A form of a program, from the source to the assembly text (own choice of names). Those that have a flag are shown
/// with the type of what each `let` binds if `typed`.
#[derive(Clone, Copy, Debug, PartialEq, Eq)]
pub enum Form {
    /// `source`: the source program itself.
    Source,
    /// `cps`: in continuation-passing style, after the CPS conversion.
    Cps { typed: bool },
    /// `closed`: after closure conversion.
    Closed { typed: bool },
    /// `hoisted`: after hoisting.
    Hoisted { typed: bool },
    /// `allocated`: with explicit allocation.
    Allocated { typed: bool },
    /// `assembly`: the assembly program, after code generation.
    Assembly,
}

// The form that a name on the command line means.
pub(crate) fn form_named(name: &str) -> Option<Form>
    ensures { result ≡ form_named name.now }
{
    if name == "source" {
        return Some(Form::Source);
    }
    if name == "cps" {
        return Some(Form::Cps { typed: false });
    }
    if name == "closed" {
        return Some(Form::Closed { typed: false });
    }
    if name == "hoisted" {
        return Some(Form::Hoisted { typed: false });
    }
    if name == "allocated" {
        return Some(Form::Allocated { typed: false });
    }
    if name == "assembly" {
        return Some(Form::Assembly);
    }
    None
}

// The same form with types, if it can be shown with them.
pub(crate) fn with_types(form: Form) -> Option<Form>
    ensures { result ≡ with_types form }
{
    match form {
        Form::Source | Form::Assembly => None,
        Form::Cps { .. } => Some(Form::Cps { typed: true }),
        Form::Closed { .. } => Some(Form::Closed { typed: true }),
        Form::Hoisted { .. } => Some(Form::Hoisted { typed: true }),
        Form::Allocated { .. } => Some(Form::Allocated { typed: true }),
    }
}
