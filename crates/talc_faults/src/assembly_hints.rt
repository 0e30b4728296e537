// The sentence for a fault of an assembly text.
ghost use Rattle.std.specs.Prelude.{◌≡◌};
ghost use Rattle.talc_faults.specs.Choice.{lent};
ghost use Rattle.talc_faults.specs.Hints.{first_instruction_rows, instruction_rows, first_tal_rows, tal_rows, tal_hint_at};

use crate::assembly_table::{T01_ROWS, T03_FIRST, T03_ROWS, T05_ROWS, T20_ROWS};
use crate::choice::{Row, pick};
use crate::place::facts_of;
use crate::sentences::tal_sentence;
use idx_core::Span;
use t_terms::TCode;

// The narrow rows for a token that no program has there, or the end, which come first.
fn first_instruction_rows() -> &'static [Row]
    ensures { lent result.now ≡ first_instruction_rows }
{
    &T03_FIRST
}

// The rows for a token that no program has there, or the end.
fn instruction_rows() -> &'static [Row]
    ensures { lent result.now ≡ instruction_rows }
{
    &T03_ROWS
}

// The rows for a code.
fn tal_rows(code: TCode) -> &'static [Row]
    ensures { lent result.now ≡ tal_rows code }
{
    match code {
        TCode::T01 => &T01_ROWS,
        TCode::T03 => instruction_rows(),
        TCode::T05 => &T05_ROWS,
        TCode::T20 => &T20_ROWS,
        TCode::T02 | TCode::T04 | TCode::T06 | TCode::T07 | TCode::T08 => &[],
        TCode::T09 | TCode::T10 | TCode::T11 | TCode::T12 | TCode::T13 | TCode::T14 => &[],
        TCode::T15 | TCode::T16 | TCode::T17 | TCode::T18 | TCode::T19 | TCode::M1 => &[],
    }
}

// The rows that come before those.
fn first_tal_rows(code: TCode) -> &'static [Row]
    ensures { lent result.now ≡ first_tal_rows code }
{
    match code {
        TCode::T03 => first_instruction_rows(),
        _ => &[],
    }
}

/// What is to be looked at or done about a fault of an assembly text (own choice): a sentence of at most 100 bytes, by
/// the code, what stands at the place and around it, and the line on what is at odds.
pub fn tal_hint(text: &[u8], code: TCode, place: Span, told: &[u8]) -> &'static str
    ensures { result.now ≡ tal_hint_at text.now code place told.now }
{
    let facts = facts_of(text, place, told, b"".as_slice());
    let usual = pick(&facts, tal_rows(code), tal_sentence(code));
    pick(&facts, first_tal_rows(code), usual)
}
