// What comes after a term that was read.
ghost use Rattle.std.specs.Prelude.{◌≡◌, ◌++◌, ◌∷◌, [], false, Some, slice_get, MatchResult};
ghost use Rattle.f_grammar.specs.ReadsTerms.{argument_next};
ghost use Rattle.f_grammar.specs.declared.heads.Argument.TheVariants as argument;
ghost use Rattle.f_grammar.specs.declared.cursor.Stopped.TheVariants as stopped;
ghost use Rattle.f_grammar.specs.Frames.{Offered, Listed, Went, after};
ghost use Rattle.f_grammar.specs.declared.frame.Frame.TheVariants as frame;

use crate::begin::push;
use crate::frame::{Control, Frame, Head, Opening, Reader};
use crate::heads::{Argument, next_argument, next_sign};
use crate::part::Part;
use crate::put::put;
use crate::{RawShape, RawType, Stopped, Wanted, expect, opened, take, whole_type};
use idx_core::{Op, Span};
use std::alloc::Global;

// ( E
fn after_paren(reader: &mut Reader, left: Span, part: Part) -> Result<Control, Stopped>
    requires { Offered reader.old.tokens.now reader.old (frame.Paren left) part }
    ensures { Went reader.old.tokens.now reader.new (after reader.old.tokens.now reader.old) result }
{
    let right = expect(reader.tokens, reader.at, Wanted::RightParen)?;
    reader.at += 1;
    reader.depth -= 1;
    Ok(Control::Give(Part {
        node: part.node,
        place: part.place,
        start: left.start,
        end: right.span.end,
    }))
}

// < E , .. , E
fn after_field(reader: &mut Reader, left: Span, fields: Vec<u64>) -> Result<Control, Stopped>
    requires { Listed reader.old.tokens.now reader.old left fields.items }
    ensures { Went reader.old.tokens.now reader.new (after reader.old.tokens.now reader.old) result }
{
    if let Some(_) = take(reader.tokens, reader.at, Wanted::Comma) {
        reader.at += 1;
        push(&mut reader.frames, Frame::Next { left, fields })?;
        return Ok(Control::Term);
    }
    let close = expect(reader.tokens, reader.at, Wanted::RightAngle)?;
    reader.at += 1;
    reader.depth -= 1;
    let shape = RawShape::Tuple(fields);
    let part = put(&mut reader.forest, shape, left.start, close.span.end)?;
    Ok(Control::Give(part))
}

// the first field, and one more
fn after_first(
    alloc: Global,
    reader: &mut Reader,
    left: Span,
    part: Part,
) -> Result<Control, Stopped>
    requires { Offered reader.old.tokens.now reader.old (frame.First left) part }
    ensures { Went reader.old.tokens.now reader.new (after reader.old.tokens.now reader.old) result }
{
    let mut fields = Vec::new(alloc);
    fields.push(part.node)?;
    after_field(reader, left, fields)
}

// One field more, where the nodes are kept.
fn with_field(full: bool, mut fields: Vec<u64>, node: u64) -> Result<Vec<u64>, Stopped>
    ensures { MatchResult result (λ r. full ≡ false → r.items ≡ fields.items ++ node ∷ []) (λ e. e ≡ stopped.Memory) }
{
    if full {
        return Ok(fields);
    }
    fields.push(node)?;
    Ok(fields)
}

fn after_next(
    reader: &mut Reader,
    left: Span,
    fields: Vec<u64>,
    part: Part,
) -> Result<Control, Stopped>
    requires { Offered reader.old.tokens.now reader.old (frame.Next left fields) part }
    ensures { Went reader.old.tokens.now reader.new (after reader.old.tokens.now reader.old) result }
{
    let more = with_field(reader.forest.full, fields, part.node)?;
    after_field(reader, left, more)
}

// # number P
fn after_proj(reader: &mut Reader, hash: Span, field: u64, part: Part) -> Result<Control, Stopped>
    requires { Offered reader.old.tokens.now reader.old (frame.Proj hash field) part }
    ensures { Went reader.old.tokens.now reader.new (after reader.old.tokens.now reader.old) result }
{
    reader.depth -= 1;
    let shape = RawShape::Proj(field, part.node);
    let part = put(&mut reader.forest, shape, hash.start, part.end)?;
    Ok(Control::Give(part))
}

// if0 ( E
fn after_test(reader: &mut Reader, word: Span, part: Part) -> Result<Control, Stopped>
    requires { Offered reader.old.tokens.now reader.old (frame.Test word) part }
    ensures { Went reader.old.tokens.now reader.new (after reader.old.tokens.now reader.old) result }
{
    expect(reader.tokens, reader.at, Wanted::Comma)?;
    reader.at += 1;
    push(&mut reader.frames, Frame::Zero { word, test: part })?;
    Ok(Control::Term)
}

// if0 ( E , E
fn after_zero(reader: &mut Reader, word: Span, test: Part, part: Part) -> Result<Control, Stopped>
    requires { Offered reader.old.tokens.now reader.old (frame.Zero word test) part }
    ensures { Went reader.old.tokens.now reader.new (after reader.old.tokens.now reader.old) result }
{
    expect(reader.tokens, reader.at, Wanted::Comma)?;
    reader.at += 1;
    let zero = part;
    push(&mut reader.frames, Frame::Other { word, test, zero })?;
    Ok(Control::Term)
}

// if0 ( E , E , E
fn after_other(
    reader: &mut Reader,
    word: Span,
    test: Part,
    zero: Part,
    part: Part,
) -> Result<Control, Stopped>
    requires { Offered reader.old.tokens.now reader.old (frame.Other word test zero) part }
    ensures { Went reader.old.tokens.now reader.new (after reader.old.tokens.now reader.old) result }
{
    let close = expect(reader.tokens, reader.at, Wanted::RightParen)?;
    reader.at += 1;
    reader.depth -= 1;
    let shape = RawShape::If0(test.node, zero.node, part.node);
    let part = put(&mut reader.forest, shape, word.start, close.span.end)?;
    Ok(Control::Give(part))
}

// fix name ( name : T ) : T . E
fn after_fix(reader: &mut Reader, head: Head, part: Part) -> Result<Control, Stopped>
    requires { Offered reader.old.tokens.now reader.old (frame.Fix head) part }
    ensures { Went reader.old.tokens.now reader.new (after reader.old.tokens.now reader.old) result }
{
    reader.depth -= 1;
    let start = head.word.start;
    let shape = RawShape::Fix {
        name: head.name,
        parameter: head.parameter,
        takes: head.takes,
        gives: head.gives,
        body: part.node,
    };
    let part = put(&mut reader.forest, shape, start, part.end)?;
    Ok(Control::Give(part))
}

// gen name . E
fn after_gen(reader: &mut Reader, word: Span, name: Span, part: Part) -> Result<Control, Stopped>
    requires { Offered reader.old.tokens.now reader.old (frame.Gen word name) part }
    ensures { Went reader.old.tokens.now reader.new (after reader.old.tokens.now reader.old) result }
{
    reader.depth -= 1;
    let shape = RawShape::Gen(name, part.node);
    let part = put(&mut reader.forest, shape, word.start, part.end)?;
    Ok(Control::Give(part))
}

// let name = E
fn after_let(reader: &mut Reader, word: Span, name: Span, part: Part) -> Result<Control, Stopped>
    requires { Offered reader.old.tokens.now reader.old (frame.Let word name) part }
    ensures { Went reader.old.tokens.now reader.new (after reader.old.tokens.now reader.old) result }
{
    expect(reader.tokens, reader.at, Wanted::In)?;
    reader.at += 1;
    reader.depth -= 1;
    let first = part;
    push(&mut reader.frames, Frame::LetBody { word, name, first })?;
    Ok(Control::Term)
}

// let name = E in E
fn after_let_body(
    reader: &mut Reader,
    word: Span,
    name: Span,
    first: Part,
    part: Part,
) -> Result<Control, Stopped>
    requires { Offered reader.old.tokens.now reader.old (frame.LetBody word name first) part }
    ensures { Went reader.old.tokens.now reader.new (after reader.old.tokens.now reader.old) result }
{
    let shape = RawShape::Let(name, first.node, part.node);
    let part = put(&mut reader.forest, shape, word.start, part.end)?;
    Ok(Control::Give(part))
}

// pack [ T , E
fn after_pack(
    alloc: Global,
    reader: &mut Reader,
    word: Span,
    hidden: RawType,
    part: Part,
) -> Result<Control, Stopped>
    requires { Offered reader.old.tokens.now reader.old (frame.Pack word hidden) part }
    ensures { Went reader.old.tokens.now reader.new (after reader.old.tokens.now reader.old) result }
{
    expect(reader.tokens, reader.at, Wanted::RightBracket)?;
    reader.at += 1;
    reader.depth -= 1;
    expect(reader.tokens, reader.at, Wanted::As)?;
    reader.at += 1;
    let found = whole_type(alloc, reader.tokens, reader.at, reader.depth)?;
    reader.at = found.next;
    let end = found.end;
    let shape = RawShape::Pack {
        hidden,
        inner: part.node,
        shape: found.ty,
    };
    let part = put(&mut reader.forest, shape, word.start, end)?;
    Ok(Control::Give(part))
}

// open [ name , name ] = E
fn after_open(
    reader: &mut Reader,
    word: Span,
    ty: Span,
    name: Span,
    part: Part,
) -> Result<Control, Stopped>
    requires { Offered reader.old.tokens.now reader.old (frame.Open word ty name) part }
    ensures { Went reader.old.tokens.now reader.new (after reader.old.tokens.now reader.old) result }
{
    expect(reader.tokens, reader.at, Wanted::In)?;
    reader.at += 1;
    reader.depth -= 1;
    let first = part;
    let opening = Opening {
        word,
        ty,
        name,
        first,
    };
    push(&mut reader.frames, Frame::OpenBody(opening))?;
    Ok(Control::Term)
}

// open [ name , name ] = E in E
fn after_open_body(reader: &mut Reader, opening: Opening, part: Part) -> Result<Control, Stopped>
    requires { Offered reader.old.tokens.now reader.old (frame.OpenBody opening) part }
    ensures { Went reader.old.tokens.now reader.new (after reader.old.tokens.now reader.old) result }
{
    let shape = RawShape::Open(opening.ty, opening.name, opening.first.node, part.node);
    let part = put(&mut reader.forest, shape, opening.word.start, part.end)?;
    Ok(Control::Give(part))
}

// ref P
fn after_ref(reader: &mut Reader, word: Span, part: Part) -> Result<Control, Stopped>
    requires { Offered reader.old.tokens.now reader.old (frame.Ref word) part }
    ensures { Went reader.old.tokens.now reader.new (after reader.old.tokens.now reader.old) result }
{
    reader.depth -= 1;
    let shape = RawShape::Ref(part.node);
    let part = put(&mut reader.forest, shape, word.start, part.end)?;
    Ok(Control::Give(part))
}

// ! P
fn after_deref(reader: &mut Reader, sign: Span, part: Part) -> Result<Control, Stopped>
    requires { Offered reader.old.tokens.now reader.old (frame.Deref sign) part }
    ensures { Went reader.old.tokens.now reader.new (after reader.old.tokens.now reader.old) result }
{
    reader.depth -= 1;
    let shape = RawShape::Deref(part.node);
    let part = put(&mut reader.forest, shape, sign.start, part.end)?;
    Ok(Control::Give(part))
}

// S := S
fn after_assigned(reader: &mut Reader, target: Part, part: Part) -> Result<Control, Stopped>
    requires { Offered reader.old.tokens.now reader.old (frame.Assigned target) part }
    ensures { Went reader.old.tokens.now reader.new (after reader.old.tokens.now reader.old) result }
{
    let shape = RawShape::Assign(target.node, part.node);
    let part = put(&mut reader.forest, shape, target.start, part.end)?;
    Ok(Control::Give(part))
}

// A P
fn after_argument(reader: &mut Reader, function: Part, part: Part) -> Result<Control, Stopped>
    requires { Offered reader.old.tokens.now reader.old (frame.Argument function) part }
    ensures { Went reader.old.tokens.now reader.new (after reader.old.tokens.now reader.old) result }
{
    let shape = RawShape::App(function.node, part.node);
    let part = put(&mut reader.forest, shape, function.start, part.end)?;
    Ok(Control::Give(part))
}

// M * A | S + M | S - M
fn after_right(reader: &mut Reader, op: Op, left: Part, part: Part) -> Result<Control, Stopped>
    requires { Offered reader.old.tokens.now reader.old (frame.Right op left) part }
    ensures { Went reader.old.tokens.now reader.new (after reader.old.tokens.now reader.old) result }
{
    let shape = RawShape::Arith(op, left.node, part.node);
    let part = put(&mut reader.forest, shape, left.start, part.end)?;
    Ok(Control::Give(part))
}

// A [ T ]
fn bracket(alloc: Global, reader: &mut Reader, part: Part) -> Result<Control, Stopped>
    requires offered { Offered reader.old.tokens.now reader.old frame.MoreParts part }
    requires bracket { argument_next (slice_get reader.old.tokens.now reader.old.at) ≡ Some argument.Bracket }
    ensures { Went reader.old.tokens.now reader.new (after reader.old.tokens.now reader.old) result }
{
    let inner = opened(reader.at, reader.depth)?;
    reader.at += 1;
    let found = whole_type(alloc, reader.tokens, reader.at, inner)?;
    let close = expect(reader.tokens, found.next, Wanted::RightBracket)?;
    reader.at = found.next + 1;
    let shape = RawShape::Inst(part.node, found.ty);
    let part = put(&mut reader.forest, shape, part.start, close.span.end)?;
    push(&mut reader.frames, Frame::MoreParts)?;
    Ok(Control::Give(part))
}

/// A ::= A P | A [ T ] | P
fn more_parts(alloc: Global, reader: &mut Reader, part: Part) -> Result<Control, Stopped>
    requires { Offered reader.old.tokens.now reader.old frame.MoreParts part }
    ensures { Went reader.old.tokens.now reader.new (after reader.old.tokens.now reader.old) result }
{
    match next_argument(reader.tokens, reader.at) {
        Some(Argument::Part) => {
            push(&mut reader.frames, Frame::MoreParts)?;
            push(&mut reader.frames, Frame::Argument { function: part })?;
            Ok(Control::Part)
        }
        Some(Argument::Bracket) => bracket(alloc, reader, part),
        None => Ok(Control::Give(part)),
    }
}

/// M ::= M * A | A
fn more_factors(reader: &mut Reader, part: Part) -> Result<Control, Stopped>
    requires { Offered reader.old.tokens.now reader.old frame.MoreFactors part }
    ensures { Went reader.old.tokens.now reader.new (after reader.old.tokens.now reader.old) result }
{
    match take(reader.tokens, reader.at, Wanted::Star) {
        Some(_) => {
            reader.at += 1;
            let op = Op::Mul;
            push(&mut reader.frames, Frame::MoreFactors)?;
            push(&mut reader.frames, Frame::Right { op, left: part })?;
            push(&mut reader.frames, Frame::MoreParts)?;
            Ok(Control::Part)
        }
        None => Ok(Control::Give(part)),
    }
}

/// S ::= S + M | S - M | M
fn more_sums(reader: &mut Reader, part: Part) -> Result<Control, Stopped>
    requires { Offered reader.old.tokens.now reader.old frame.MoreSums part }
    ensures { Went reader.old.tokens.now reader.new (after reader.old.tokens.now reader.old) result }
{
    match next_sign(reader.tokens, reader.at) {
        Some(op) => {
            reader.at += 1;
            push(&mut reader.frames, Frame::MoreSums)?;
            push(&mut reader.frames, Frame::Right { op, left: part })?;
            push(&mut reader.frames, Frame::MoreFactors)?;
            push(&mut reader.frames, Frame::MoreParts)?;
            Ok(Control::Part)
        }
        None => Ok(Control::Give(part)),
    }
}

/// E ::= S := S | S
fn more_assign(reader: &mut Reader, part: Part) -> Result<Control, Stopped>
    requires { Offered reader.old.tokens.now reader.old frame.MoreAssign part }
    ensures { Went reader.old.tokens.now reader.new (after reader.old.tokens.now reader.old) result }
{
    match take(reader.tokens, reader.at, Wanted::Assign) {
        Some(_) => {
            reader.at += 1;
            push(&mut reader.frames, Frame::Assigned { target: part })?;
            push(&mut reader.frames, Frame::MoreSums)?;
            push(&mut reader.frames, Frame::MoreFactors)?;
            push(&mut reader.frames, Frame::MoreParts)?;
            Ok(Control::Part)
        }
        None => Ok(Control::Give(part)),
    }
}

/// What is done with a term for which the frame waits.
pub(crate) fn resume(
    alloc: Global,
    reader: &mut Reader,
    frame: Frame,
    part: Part,
) -> Result<Control, Stopped>
    requires { Offered reader.old.tokens.now reader.old frame part }
    ensures { Went reader.old.tokens.now reader.new (after reader.old.tokens.now reader.old) result }
{
    match frame {
        Frame::Paren { left } => after_paren(reader, left, part),
        Frame::First { left } => after_first(alloc, reader, left, part),
        Frame::Next { left, fields } => after_next(reader, left, fields, part),
        Frame::Proj { hash, field } => after_proj(reader, hash, field, part),
        Frame::Test { word } => after_test(reader, word, part),
        Frame::Zero { word, test } => after_zero(reader, word, test, part),
        Frame::Other { word, test, zero } => after_other(reader, word, test, zero, part),
        Frame::Fix(head) => after_fix(reader, head, part),
        Frame::Gen { word, name } => after_gen(reader, word, name, part),
        Frame::Let { word, name } => after_let(reader, word, name, part),
        Frame::LetBody { word, name, first } => after_let_body(reader, word, name, first, part),
        Frame::Pack { word, hidden } => after_pack(alloc, reader, word, hidden, part),
        Frame::Open { word, ty, name } => after_open(reader, word, ty, name, part),
        Frame::OpenBody(opening) => after_open_body(reader, opening, part),
        Frame::Ref { word } => after_ref(reader, word, part),
        Frame::Deref { sign } => after_deref(reader, sign, part),
        Frame::Argument { function } => after_argument(reader, function, part),
        Frame::Right { op, left } => after_right(reader, op, left, part),
        Frame::Assigned { target } => after_assigned(reader, target, part),
        Frame::MoreParts => more_parts(alloc, reader, part),
        Frame::MoreFactors => more_factors(reader, part),
        Frame::MoreSums => more_sums(reader, part),
        Frame::MoreAssign => more_assign(reader, part),
    }
}
