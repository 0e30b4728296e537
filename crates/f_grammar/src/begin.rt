// The first tokens of a term.
ghost use Rattle.std.specs.Prelude.{◌≡◌, ◌++◌, ◌∷◌, [], Some, slice_get, MatchResult};
ghost use Rattle.text_core.specs.Table.{Nt};
ghost use Rattle.text_core.specs.Going.{next_of};
ghost use Rattle.f_lexer.specs.declared.kind.Kind.TheVariants as kinds;
ghost use Rattle.f_grammar.specs.Machine.{LE, LP, table};
ghost use Rattle.f_grammar.specs.declared.cursor.Stopped.TheVariants as stopped;
ghost use Rattle.f_grammar.specs.declared.cursor.Wanted.TheVariants as want;
ghost use Rattle.f_grammar.specs.declared.raw.RawShape.TheVariants as shapes;
ghost use Rattle.f_grammar.specs.Frames.{Stays, Went, work, IsLeaf};
ghost use Rattle.f_grammar.specs.declared.frame.Control.TheVariants as control;

use crate::frame::{Control, Frame, Reader};
use crate::heads::{field_number, function_head, gen_head};
use crate::put::put;
use crate::{RawShape, Stopped, Wanted, expect, opened, peek, take, whole_type};
use f_lexer::{Kind, Token};
use std::alloc::Global;

/// One frame more.
pub(crate) fn push(frames: &mut Vec<Frame>, frame: Frame) -> Result<(), Stopped>
    ensures { MatchResult result (λ u. frames.new.items ≡ frames.old.items ++ frame ∷ []) (λ e. e ≡ stopped.Memory) }
{
    frames.push(frame)?;
    Ok(())
}

// fix name ( name : T ) : T . E
fn begin_fix(alloc: Global, reader: &mut Reader, word: Token) -> Result<Control, Stopped>
    requires stays { Stays reader.old.tokens.now reader.old (Nt LE ∷ []) [] }
    requires word { next_of table want.Fix (slice_get reader.old.tokens.now reader.old.at) ≡ Some word }
    ensures { Went reader.old.tokens.now reader.new (work reader.old.tokens.now reader.old control.Term) result }
{
    let found = function_head(alloc, reader.tokens, reader.at, reader.depth, word)?;
    reader.at = found.next;
    reader.depth += 1;
    push(&mut reader.frames, Frame::Fix(found.head))?;
    Ok(Control::Term)
}

// gen name . E
fn begin_gen(reader: &mut Reader, word: Token) -> Result<Control, Stopped>
    requires stays { Stays reader.old.tokens.now reader.old (Nt LE ∷ []) [] }
    requires word { next_of table want.Gen (slice_get reader.old.tokens.now reader.old.at) ≡ Some word }
    ensures { Went reader.old.tokens.now reader.new (work reader.old.tokens.now reader.old control.Term) result }
{
    let name = gen_head(reader.tokens, reader.at, reader.depth, word)?;
    reader.at += 3;
    reader.depth += 1;
    let word = word.span;
    let name = name.span;
    push(&mut reader.frames, Frame::Gen { word, name })?;
    Ok(Control::Term)
}

// let name = E in E
fn begin_let(reader: &mut Reader, word: Token) -> Result<Control, Stopped>
    requires stays { Stays reader.old.tokens.now reader.old (Nt LE ∷ []) [] }
    requires word { next_of table want.Let (slice_get reader.old.tokens.now reader.old.at) ≡ Some word }
    ensures { Went reader.old.tokens.now reader.new (work reader.old.tokens.now reader.old control.Term) result }
{
    reader.depth = opened(reader.at, reader.depth)?;
    reader.at += 1;
    let name = expect(reader.tokens, reader.at, Wanted::Name)?;
    reader.at += 1;
    expect(reader.tokens, reader.at, Wanted::Equals)?;
    reader.at += 1;
    let word = word.span;
    let name = name.span;
    push(&mut reader.frames, Frame::Let { word, name })?;
    Ok(Control::Term)
}

// pack [ T , E ] as T
fn begin_pack(alloc: Global, reader: &mut Reader, word: Token) -> Result<Control, Stopped>
    requires stays { Stays reader.old.tokens.now reader.old (Nt LE ∷ []) [] }
    requires word { next_of table want.Pack (slice_get reader.old.tokens.now reader.old.at) ≡ Some word }
    ensures { Went reader.old.tokens.now reader.new (work reader.old.tokens.now reader.old control.Term) result }
{
    reader.at += 1;
    expect(reader.tokens, reader.at, Wanted::LeftBracket)?;
    reader.depth = opened(reader.at, reader.depth)?;
    reader.at += 1;
    let found = whole_type(alloc, reader.tokens, reader.at, reader.depth)?;
    expect(reader.tokens, found.next, Wanted::Comma)?;
    reader.at = found.next + 1;
    let word = word.span;
    let hidden = found.ty;
    push(&mut reader.frames, Frame::Pack { word, hidden })?;
    Ok(Control::Term)
}

// open [ name , name ] = E in E
fn begin_open(reader: &mut Reader, word: Token) -> Result<Control, Stopped>
    requires stays { Stays reader.old.tokens.now reader.old (Nt LE ∷ []) [] }
    requires word { next_of table want.Open (slice_get reader.old.tokens.now reader.old.at) ≡ Some word }
    ensures { Went reader.old.tokens.now reader.new (work reader.old.tokens.now reader.old control.Term) result }
{
    reader.depth = opened(reader.at, reader.depth)?;
    reader.at += 1;
    expect(reader.tokens, reader.at, Wanted::LeftBracket)?;
    reader.depth = opened(reader.at, reader.depth)?;
    reader.at += 1;
    let ty = expect(reader.tokens, reader.at, Wanted::Name)?;
    reader.at += 1;
    expect(reader.tokens, reader.at, Wanted::Comma)?;
    reader.at += 1;
    let name = expect(reader.tokens, reader.at, Wanted::Name)?;
    reader.at += 1;
    expect(reader.tokens, reader.at, Wanted::RightBracket)?;
    reader.at += 1;
    reader.depth -= 1;
    expect(reader.tokens, reader.at, Wanted::Equals)?;
    reader.at += 1;
    let word = word.span;
    let ty = ty.span;
    let name = name.span;
    push(&mut reader.frames, Frame::Open { word, ty, name })?;
    Ok(Control::Term)
}

/// E ::= fix name ( name : T ) : T . E | gen name . E | let name = E in E | pack [ T , E ] as T
/// | open [ name , name ] = E in E | S := S | S
pub(crate) fn begin_term(alloc: Global, reader: &mut Reader) -> Result<Control, Stopped>
    requires { Stays reader.old.tokens.now reader.old (Nt LE ∷ []) [] }
    ensures { Went reader.old.tokens.now reader.new (work reader.old.tokens.now reader.old control.Term) result }
{
    if let Some(word) = take(reader.tokens, reader.at, Wanted::Fix) {
        return begin_fix(alloc, reader, word);
    }
    if let Some(word) = take(reader.tokens, reader.at, Wanted::Gen) {
        return begin_gen(reader, word);
    }
    if let Some(word) = take(reader.tokens, reader.at, Wanted::Let) {
        return begin_let(reader, word);
    }
    if let Some(word) = take(reader.tokens, reader.at, Wanted::Pack) {
        return begin_pack(alloc, reader, word);
    }
    if let Some(word) = take(reader.tokens, reader.at, Wanted::Open) {
        return begin_open(reader, word);
    }
    push(&mut reader.frames, Frame::MoreAssign)?;
    push(&mut reader.frames, Frame::MoreSums)?;
    push(&mut reader.frames, Frame::MoreFactors)?;
    push(&mut reader.frames, Frame::MoreParts)?;
    Ok(Control::Part)
}

// A name or a number.
fn leaf(reader: &mut Reader, token: Token, shape: RawShape) -> Result<Control, Stopped>
    requires stays { Stays reader.old.tokens.now reader.old (Nt LP ∷ []) [] }
    requires token { slice_get reader.old.tokens.now reader.old.at ≡ Some token }
    requires leaf { IsLeaf token.kind shape }
    ensures { Went reader.old.tokens.now reader.new (work reader.old.tokens.now reader.old control.Part) result }
{
    reader.at += 1;
    let span = token.span;
    let part = put(&mut reader.forest, shape, span.start, span.end)?;
    Ok(Control::Give(part))
}

// ( E )
fn begin_paren(reader: &mut Reader, left: Token) -> Result<Control, Stopped>
    requires stays { Stays reader.old.tokens.now reader.old (Nt LP ∷ []) [] }
    requires token { slice_get reader.old.tokens.now reader.old.at ≡ Some left }
    requires kind { left.kind ≡ kinds.LeftParen }
    ensures { Went reader.old.tokens.now reader.new (work reader.old.tokens.now reader.old control.Part) result }
{
    reader.depth = opened(reader.at, reader.depth)?;
    reader.at += 1;
    push(&mut reader.frames, Frame::Paren { left: left.span })?;
    Ok(Control::Term)
}

// < > | < E , .. , E >
fn begin_tuple(alloc: Global, reader: &mut Reader, left: Token) -> Result<Control, Stopped>
    requires stays { Stays reader.old.tokens.now reader.old (Nt LP ∷ []) [] }
    requires token { slice_get reader.old.tokens.now reader.old.at ≡ Some left }
    requires kind { left.kind ≡ kinds.LeftAngle }
    ensures { Went reader.old.tokens.now reader.new (work reader.old.tokens.now reader.old control.Part) result }
{
    let inner = opened(reader.at, reader.depth)?;
    reader.at += 1;
    match take(reader.tokens, reader.at, Wanted::RightAngle) {
        Some(close) => {
            reader.at += 1;
            let shape = RawShape::Tuple(Vec::new(alloc));
            let part = put(&mut reader.forest, shape, left.span.start, close.span.end)?;
            Ok(Control::Give(part))
        }
        None => {
            reader.depth = inner;
            push(&mut reader.frames, Frame::First { left: left.span })?;
            Ok(Control::Term)
        }
    }
}

// # number P
fn begin_proj(reader: &mut Reader, hash: Token) -> Result<Control, Stopped>
    requires stays { Stays reader.old.tokens.now reader.old (Nt LP ∷ []) [] }
    requires token { slice_get reader.old.tokens.now reader.old.at ≡ Some hash }
    requires kind { hash.kind ≡ kinds.Hash }
    ensures { Went reader.old.tokens.now reader.new (work reader.old.tokens.now reader.old control.Part) result }
{
    reader.depth = opened(reader.at, reader.depth)?;
    reader.at += 1;
    let field = field_number(reader.tokens, reader.at)?;
    reader.at += 1;
    let hash = hash.span;
    push(&mut reader.frames, Frame::Proj { hash, field })?;
    Ok(Control::Part)
}

// if0 ( E , E , E )
fn begin_if0(reader: &mut Reader, word: Token) -> Result<Control, Stopped>
    requires stays { Stays reader.old.tokens.now reader.old (Nt LP ∷ []) [] }
    requires token { slice_get reader.old.tokens.now reader.old.at ≡ Some word }
    requires kind { word.kind ≡ kinds.If0 }
    ensures { Went reader.old.tokens.now reader.new (work reader.old.tokens.now reader.old control.Part) result }
{
    reader.at += 1;
    expect(reader.tokens, reader.at, Wanted::LeftParen)?;
    reader.depth = opened(reader.at, reader.depth)?;
    reader.at += 1;
    push(&mut reader.frames, Frame::Test { word: word.span })?;
    Ok(Control::Term)
}

// ref P
fn begin_ref(reader: &mut Reader, word: Token) -> Result<Control, Stopped>
    requires stays { Stays reader.old.tokens.now reader.old (Nt LP ∷ []) [] }
    requires token { slice_get reader.old.tokens.now reader.old.at ≡ Some word }
    requires kind { word.kind ≡ kinds.Ref }
    ensures { Went reader.old.tokens.now reader.new (work reader.old.tokens.now reader.old control.Part) result }
{
    reader.depth = opened(reader.at, reader.depth)?;
    reader.at += 1;
    push(&mut reader.frames, Frame::Ref { word: word.span })?;
    Ok(Control::Part)
}

// ! P
fn begin_deref(reader: &mut Reader, sign: Token) -> Result<Control, Stopped>
    requires stays { Stays reader.old.tokens.now reader.old (Nt LP ∷ []) [] }
    requires token { slice_get reader.old.tokens.now reader.old.at ≡ Some sign }
    requires kind { sign.kind ≡ kinds.Bang }
    ensures { Went reader.old.tokens.now reader.new (work reader.old.tokens.now reader.old control.Part) result }
{
    reader.depth = opened(reader.at, reader.depth)?;
    reader.at += 1;
    push(&mut reader.frames, Frame::Deref { sign: sign.span })?;
    Ok(Control::Part)
}

/// P ::= name | number | ( E ) | < > | < E , .. , E > | # number P | if0 ( E , E , E ) | ref P | ! P
pub(crate) fn begin_part(alloc: Global, reader: &mut Reader) -> Result<Control, Stopped>
    requires { Stays reader.old.tokens.now reader.old (Nt LP ∷ []) [] }
    ensures { Went reader.old.tokens.now reader.new (work reader.old.tokens.now reader.old control.Part) result }
{
    let at = reader.at;
    let token = match peek(reader.tokens, at) {
        Some(token) => token,
        None => return Err(Stopped::Unexpected(at)),
    };
    match token.kind {
        Kind::Name => leaf(reader, token, RawShape::Var),
        Kind::Plain(value) => leaf(reader, token, RawShape::Num(value)),
        Kind::Negative(value) => leaf(reader, token, RawShape::Num(value)),
        Kind::LeftParen => begin_paren(reader, token),
        Kind::LeftAngle => begin_tuple(alloc, reader, token),
        Kind::Hash => begin_proj(reader, token),
        Kind::If0 => begin_if0(reader, token),
        Kind::Ref => begin_ref(reader, token),
        Kind::Bang => begin_deref(reader, token),
        _ => Err(Stopped::Unexpected(at)),
    }
}
