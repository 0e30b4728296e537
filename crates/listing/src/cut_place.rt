// Where in a program a place is.
ghost use Rattle.std.specs.Prelude.{◌≡◌};
ghost use Rattle.t_terms.specs.Read.{body, data_fields, spanned, spanned_blocks, spanned_heap};
ghost use Rattle.t_terms.specs.ReadProgram.{spanned_program};
ghost use Rattle.listing.specs.Before.{in_fields, in_first, in_heap, is_at, is_before_blocks};
ghost use Rattle.listing.specs.Steps.{IsCount, IsFirstAt, IsLastAt};

use idx_core::Span;
use t_terms::{Block, Data, Instr, TProgram, Value};
use t_types::TType;

// Whether what has this span stands at the place.
fn is_at(place: Span, span: Span) -> bool
    ensures { result ≡ is_at place span }
{
    span.start == place.start && span.end == place.end
}

// The number of the first instruction at the place.
fn first_at(steps: &[(Instr, Span)], place: Span) -> Option<usize>
    ensures { IsFirstAt place (body steps.now) result }
{
    for (i, step) in steps.iter().enumerate() {
        if is_at(place, step.1) {
            return Some(i);
        }
    }
    None
}

// The number of the end behind these instructions, where it stands at the place.
fn last_at(steps: &[(Instr, Span)], end: Span, place: Span) -> Option<usize>
    ensures { IsLastAt place (body steps.now) end result }
{
    if is_at(place, end) {
        return Some(steps.len());
    }
    None
}

/// How many instructions of a block stand before the place, where one of them or the end of the block stands at it.
pub fn steps_before(block: &Block, place: Span) -> Option<usize>
    ensures { IsCount place (spanned block.now) result }
{
    let steps = block.body.as_slice();
    match first_at(steps, place) {
        Some(count) => Some(count),
        None => last_at(steps, block.end_span, place),
    }
}

// Whether the label of the first block stands at the place.
fn in_first(blocks: &[Block], place: Span) -> bool
    ensures { result ≡ in_first place (spanned_blocks blocks.now) }
{
    match blocks.get(0) {
        Some(first) => is_at(place, first.name),
        None => false,
    }
}

// Whether a field of a data tuple does.
fn in_fields(fields: &[(Value, TType, Span)], place: Span) -> bool
    ensures { result ≡ in_fields place (data_fields fields.now) }
{
    for field in fields {
        if is_at(place, field.2) {
            return true;
        }
    }
    false
}

// Whether a field of the data does.
fn in_heap(heap: &[Data], place: Span) -> bool
    ensures { result ≡ in_heap place (spanned_heap heap.now) }
{
    for tuple in heap {
        if in_fields(&tuple.fields, place) {
            return true;
        }
    }
    false
}

/// Whether the label of the first block, or a field of the data, stands at the place: typing looks at these before it
/// looks at any block.
pub fn is_before_blocks(program: &TProgram, place: Span) -> bool
    ensures { result ≡ is_before_blocks place (spanned_program program.now) }
{
    if in_first(&program.blocks, place) {
        return true;
    }
    in_heap(&program.heap, place)
}
