// The sentence for a fault of a source text.
ghost use Rattle.std.specs.Prelude.{◌≡◌};
ghost use Rattle.talc_faults.specs.Choice.{lent};
ghost use Rattle.talc_faults.specs.Hints.{byte_rows, first_token_rows, token_rows, last_token_rows, name_rows};
ghost use Rattle.talc_faults.specs.Hints.{end_rows, call_rows, argument_rows, operand_rows, cell_rows};
ghost use Rattle.talc_faults.specs.Hints.{first_rows, source_rows, last_rows};
ghost use Rattle.talc_faults.specs.Hints.{form_word, seen_word, source_kind, source_hint_at};

use crate::around::bytes_at;
use crate::choice::{Row, pick};
use crate::place::facts_of;
use crate::sentences::source_sentence;
use crate::source_table::{
    E01_ROWS, E04_ROWS, E05_ROWS, E06_ROWS, E07_ROWS, E08_ROWS, E09_ROWS, E10_ROWS, E12_ROWS,
    E13_ROWS, E14_ROWS, E15_ROWS, E21_ROWS,
};
use crate::token_table::{E03_FIRST, E03_LAST, E03_ROWS};
use crate::type_form::Form;
use crate::walk::{Seen, walked};
use f_terms::Code;
use idx_core::Span;

// The rows for a byte that begins no token.
fn byte_rows() -> &'static [Row]
    ensures { lent result.now ≡ byte_rows }
{
    &E01_ROWS
}

// The narrow rows for a token that no program has there, which come first.
fn first_token_rows() -> &'static [Row]
    ensures { lent result.now ≡ first_token_rows }
{
    &E03_FIRST
}

// The rows for a token that no program has there.
fn token_rows() -> &'static [Row]
    ensures { lent result.now ≡ token_rows }
{
    &E03_ROWS
}

// Those of them that come last.
fn last_token_rows() -> &'static [Row]
    ensures { lent result.now ≡ last_token_rows }
{
    &E03_LAST
}

// The rows for a name that nothing binds.
fn name_rows() -> &'static [Row]
    ensures { lent result.now ≡ name_rows }
{
    &E05_ROWS
}

// The rows for the end of the text.
fn end_rows() -> &'static [Row]
    ensures { lent result.now ≡ end_rows }
{
    &E04_ROWS
}

// The rows for what is called.
fn call_rows() -> &'static [Row]
    ensures { lent result.now ≡ call_rows }
{
    &E07_ROWS
}

// The rows for an operand.
fn operand_rows() -> &'static [Row]
    ensures { lent result.now ≡ operand_rows }
{
    &E12_ROWS
}

// The rows for what is read or set.
fn cell_rows() -> &'static [Row]
    ensures { lent result.now ≡ cell_rows }
{
    &E21_ROWS
}

// The rows for an argument.
fn argument_rows() -> &'static [Row]
    ensures { lent result.now ≡ argument_rows }
{
    &E08_ROWS
}

// The rows for a code.
fn source_rows(code: Code) -> &'static [Row]
    ensures { lent result.now ≡ source_rows code }
{
    match code {
        Code::E01 => byte_rows(),
        Code::E03 => token_rows(),
        Code::E04 => end_rows(),
        Code::E05 => name_rows(),
        Code::E06 => &E06_ROWS,
        Code::E07 => call_rows(),
        Code::E08 => argument_rows(),
        Code::E09 => &E09_ROWS,
        Code::E10 => &E10_ROWS,
        Code::E12 => operand_rows(),
        Code::E13 => &E13_ROWS,
        Code::E14 => &E14_ROWS,
        Code::E15 => &E15_ROWS,
        Code::E21 => cell_rows(),
        Code::E02 | Code::E11 | Code::E16 | Code::E17 | Code::E18 | Code::E19 => &[],
        Code::E22 | Code::L1 | Code::L2 | Code::L3 | Code::L4 | Code::L5 => &[],
    }
}

// The rows that come before those.
fn first_rows(code: Code) -> &'static [Row]
    ensures { lent result.now ≡ first_rows code }
{
    match code {
        Code::E03 => first_token_rows(),
        _ => &[],
    }
}

// The rows that come after those.
fn last_rows(code: Code) -> &'static [Row]
    ensures { lent result.now ≡ last_rows code }
{
    match code {
        Code::E03 => last_token_rows(),
        _ => &[],
    }
}

// The word for a form.
fn form_word(form: Form) -> &'static str
    ensures { result.now ≡ form_word form }
{
    match form {
        Form::Untold => "untold",
        Form::Integer => "integer",
        Form::Variable => "variable",
        Form::Function => "function",
        Form::Polymorphic => "polymorphic",
        Form::Tuple => "tuple",
        Form::Package => "package",
        Form::Reference => "reference",
    }
}

// The word for where a name is bound that is bound nowhere around its place: the first walk ends there, the second goes
// over the whole text.
fn seen_word(before: Seen, all: Seen) -> &'static str
    ensures { result.now ≡ seen_word before all }
{
    match before {
        Seen::Own => "own",
        Seen::Ended => "ended",
        Seen::Nowhere => match all {
            Seen::Nowhere => "nowhere",
            Seen::Own | Seen::Ended => "later",
        },
    }
}

// The word for the form, or of a name that nothing binds for where it is bound.
fn source_kind(text: &[u8], before: &[u8], found: &[u8], code: Code, form: Form) -> &'static str
    ensures { result.now ≡ source_kind text.now before.now found.now code form }
{
    match code {
        Code::E05 => seen_word(walked(before, found, 0).seen, walked(text, found, 0).seen),
        _ => form_word(form),
    }
}

/// What is to be looked at or done about a fault of a source text (own choice): a sentence of at most 100 bytes, by the
/// code, what stands at the place and around it, the line on what is at odds, and the form of the type that is found.
pub fn source_hint(text: &[u8], code: Code, place: Span, told: &[u8], form: Form) -> &'static str
    ensures { result.now ≡ source_hint_at text.now code place told.now form }
{
    let before = bytes_at(text, 0, place.start);
    let found = bytes_at(text, place.start, place.end);
    let kind = source_kind(text, before, found, code, form);
    let facts = facts_of(text, place, told, kind.as_bytes());
    let otherwise = pick(&facts, last_rows(code), source_sentence(code));
    let usual = pick(&facts, source_rows(code), otherwise);
    pick(&facts, first_rows(code), usual)
}
