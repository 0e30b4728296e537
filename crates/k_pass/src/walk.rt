// A term is to be converted: its first step.
ghost use Rattle.std.specs.Prelude.{◌≡◌, ℕ, ◌<◌, ◌≤◌, ◌∷◌, ◌++◌, [], IfOk, OnOk, map, length};
ghost use Rattle.std.specs.List.{All};
ghost use Rattle.f_terms.specs.Read.{tree};
ghost use Rattle.k_terms.specs.Stream.{NTuple, NName};
ghost use Rattle.k_terms.specs.Read.{knode, ktree};
ghost use Rattle.f_terms.specs.Noted.{Noted, EFix, EGen, EIf};
ghost use Rattle.f_terms.specs.NotedTerm.{noted_at};
ghost use Rattle.f_terms.specs.ReadTerm.{count};
ghost use Rattle.k_pass.specs.Emit.{atom_nodes};
ghost use Rattle.k_pass.specs.Machine.{Nodes, atom, Steps, Goes, FieldsGo, KeptIn, Inside};
ghost use Rattle.k_pass.specs.declared.work.Control.TheVariants as controls;

use crate::access::{atom_of, deeper, node_at, put, put_atom};
use crate::hand::{open_rest, take_tail};
use crate::types::{fix_types, gen_types, k_type_at, under_all};
use crate::work::{Atom, Choice, Control, Frame, Part, Pending, Tuple, Work};
use f_terms::{FShape, FTerm, FType};
use idx_core::OutOfMemory;
use k_terms::{KNode, KType};
use std::alloc::Global;

// A part of a term comes first, and a frame waits for its atom.
pub(crate) fn enter<'a>(
    frames: &mut Vec<Frame<'a>>,
    frame: Frame<'a>,
    node: u64,
    depth: u64,
) -> Result<Control, OutOfMemory>
    ensures { IfOk result (λ c. (c ≡ controls.Walk node depth)
        × (frames.new.items ≡ frames.old.items ++ frame.entry ∷ [])) }
{
    frames.push(frame)?;
    Ok(Control::Walk { node, depth })
}

// The first step of a term.
pub(crate) fn walk<'a>(
    alloc: Global,
    term: &'a FTerm,
    types: &'a [FType],
    work: &mut Work<'a>,
    part: Part,
) -> Result<Control, OutOfMemory>
    requires here { part.node < count term.now }
    requires table { count term.now ≤ length types.now }
    ensures steps { IfOk result (λ r. Steps (noted_at term.now types.now) work.old
        (controls.Walk part.node part.depth) work.new r) }
    ensures inside { IfOk result (λ r. KeptIn (count term.now) work.old → Inside (count term.now) work.new r) }
{
    let Part { node, depth } = part;
    let found = node_at(term, types, node);
    let ty = found.1;
    match &found.0.shape {
        FShape::Var(i) => {
            let atom = atom_of(&work.names, *i);
            Ok(Control::Give { atom, depth })
        }
        FShape::Int(n) => Ok(Control::Give {
            atom: Atom::Literal(*n),
            depth,
        }),
        FShape::Fix { arg, res, body } => {
            walk_fix(alloc, work, arg, res, Part { node: *body, depth })
        }
        FShape::App(f, x) => enter(&mut work.frames, Frame::Fun { x: *x, ty }, *f, depth),
        FShape::Gen(body) => { walk_gen(alloc, work, Part { node: *body, depth }, under_all(ty)) }
        FShape::Inst(e, arg) => enter(&mut work.frames, Frame::Inst { arg, ty }, *e, depth),
        FShape::Tuple(es) => {
            let done = Vec::new(alloc);
            walk_fields(alloc, work, Tuple { rest: es, done, ty }, depth)
        }
        FShape::Proj(i, e) => enter(&mut work.frames, Frame::Proj { i: *i, ty }, *e, depth),
        FShape::Arith(op, a, b) => {
            enter(&mut work.frames, Frame::Left { op: *op, b: *b }, *a, depth)
        }
        FShape::If0(test, zero, other) => {
            let (test, zero, other) = (*test, *zero, *other);
            walk_if0(alloc, work, Choice { test, zero, other }, ty, depth)
        }
        FShape::Let(a, b) => enter(&mut work.frames, Frame::Let { body: *b }, *a, depth),
        FShape::Pack {
            hidden,
            inner,
            shape,
        } => enter(
            &mut work.frames,
            Frame::Pack { hidden, ty: shape },
            *inner,
            depth,
        ),
        FShape::Open(a, b) => enter(&mut work.frames, Frame::Open { body: *b, ty }, *a, depth),
        FShape::Ref(e) => enter(&mut work.frames, Frame::Ref { ty }, *e, depth),
        FShape::Deref(e) => enter(&mut work.frames, Frame::Deref { ty }, *e, depth),
        FShape::Assign(a, b) => enter(&mut work.frames, Frame::Cell { value: *b }, *a, depth),
    }
}

// A function is named, its body comes first.
fn walk_fix<'a>(
    alloc: Global,
    work: &mut Work<'a>,
    arg: &'a FType,
    res: &'a FType,
    body: Part,
) -> Result<Control, OutOfMemory>
    ensures steps { IfOk result (λ r. (t : ℕ → Noted) →
        Goes t work.old (EFix (tree arg.now) (tree res.now) (t body.node)) body.depth work.new r) }
    ensures inside { IfOk result (λ r. (m : ℕ) → body.node < m → KeptIn m work.old → Inside m work.new r) }
{
    let Part { node, depth } = body;
    let types = work.types;
    let args = fix_types(alloc, arg, res, types, &work.levels)?;
    let code = KNode::Code {
        level: depth,
        depth: types,
        owes: 0,
        args,
    };
    put(&mut work.out, code)?;
    let first = deeper(depth)?;
    let level = deeper(first)?;
    let inside = deeper(level)?;
    work.names.push(Atom::Level(depth))?;
    work.names.push(Atom::Level(first))?;
    work.pending.push(Pending::Fix {
        depth,
        types,
        arg,
        res,
    })?;
    enter(&mut work.frames, Frame::Tail { level }, node, inside)
}

// A suspended body is named, the body comes first.
fn walk_gen<'a>(
    alloc: Global,
    work: &mut Work<'a>,
    body: Part,
    ty: &'a FType,
) -> Result<Control, OutOfMemory>
    ensures steps { IfOk result (λ r. (t : ℕ → Noted) →
        Goes t work.old (EGen (t body.node) (tree ty.now)) body.depth work.new r) }
    ensures inside { IfOk result (λ r. (m : ℕ) → body.node < m → KeptIn m work.old → Inside m work.new r) }
{
    let Part { node, depth } = body;
    let types = work.types;
    let under = deeper(types)?;
    work.types = under;
    work.levels.push(types)?;
    let args = gen_types(alloc, ty, under, &work.levels)?;
    let code = KNode::Code {
        level: depth,
        depth: types,
        owes: 1,
        args,
    };
    put(&mut work.out, code)?;
    let level = deeper(depth)?;
    let inside = deeper(level)?;
    work.pending.push(Pending::Gen { depth, types, ty })?;
    enter(&mut work.frames, Frame::Tail { level }, node, inside)
}

// The test comes first where the term is in tail place; else what comes after the term is named first.
fn walk_if0<'a>(
    alloc: Global,
    work: &mut Work<'a>,
    choice: Choice,
    ty: &'a FType,
    depth: u64,
) -> Result<Control, OutOfMemory>
    ensures steps { IfOk result (λ r. (t : ℕ → Noted) →
        Goes t work.old (EIf (t choice.test) (t choice.zero) (t choice.other) (tree ty.now)) depth work.new r) }
    ensures inside { IfOk result (λ r. (m : ℕ) →
        choice.test < m → choice.zero < m → choice.other < m → KeptIn m work.old → Inside m work.new r) }
{
    let Choice { test, zero, other } = choice;
    match take_tail(&mut work.frames) {
        Some(level) => {
            let frame = Frame::Test { zero, other, level };
            enter(&mut work.frames, frame, test, depth)
        }
        None => {
            let ended = Pending::If0 {
                test,
                zero,
                other,
                depth,
                types: work.types,
                ty,
            };
            open_rest(alloc, work, ty, ended, depth)
        }
    }
}

// The next field of a tuple, or the tuple of those that are done.
pub(crate) fn walk_fields<'a>(
    alloc: Global,
    work: &mut Work<'a>,
    tuple: Tuple<'a>,
    depth: u64,
) -> Result<Control, OutOfMemory>
    ensures steps { IfOk result (λ r. (t : ℕ → Noted) →
        FieldsGo t work.old tuple.entry.rest.now (map atom tuple.entry.done.items)
        (tree tuple.entry.ty.now) depth work.new r) }
    ensures inside { IfOk result (λ r. (m : ℕ) →
        All (λ i. i < m) tuple.entry.rest.now → KeptIn m work.old → Inside m work.new r) }
{
    let Tuple { rest, done, ty } = tuple;
    match rest.split_first() {
        None => {
            let made = k_type_at(alloc, ty, work.types, &work.levels)?;
            put_tuple(&mut work.out, &done, made, depth)?;
            let inside = deeper(depth)?;
            Ok(Control::Give {
                atom: Atom::Level(depth),
                depth: inside,
            })
        }
        Some((e, rest)) => enter(
            &mut work.frames,
            Frame::Fields { rest, done, ty },
            *e,
            depth,
        ),
    }
}

// Several atoms.
fn put_atoms(out: &mut Vec<KNode>, done: &[Atom]) -> Result<(), OutOfMemory>
    ensures { OnOk result ((ns : Nodes) →
        map knode out.new.items ++ ns ≡ map knode out.old.items ++ atom_nodes (map atom done.now) ns) }
{
    for a in done {
        put_atom(out, *a)?;
    }
    Ok(())
}

// A tuple is named.
fn put_tuple(out: &mut Vec<KNode>, done: &[Atom], ty: KType, depth: u64) -> Result<(), OutOfMemory>
    ensures { OnOk result ((ns : Nodes) →
        map knode out.new.items ++ ns ≡ map knode out.old.items ++ atom_nodes (map atom done.now)
        (NTuple (length (map atom done.now)) ∷ NName depth (ktree ty) ∷ ns)) }
{
    put_atoms(out, done)?;
    put(out, KNode::Tuple(done.len() as u64))?;
    put(out, KNode::Name { level: depth, ty })?;
    Ok(())
}
