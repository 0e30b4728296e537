// An atom is there: what is done with it, by the innermost frame.
ghost use Rattle.std.specs.Prelude.{ℕ, ◌<◌, ◌++◌, ◌∷◌, [], IfOk, map};
ghost use Rattle.std.specs.List.{All};
ghost use Rattle.f_terms.specs.Noted.{Noted};
ghost use Rattle.f_terms.specs.Read.{tree};
ghost use Rattle.k_pass.specs.Machine.{atom, Steps, Takes, FieldsGo, KeptIn, Inside};
ghost use Rattle.k_pass.specs.declared.work.Frame.TheVariants as frames;
ghost use Rattle.k_pass.specs.declared.work.Control.TheVariants as controls;

use crate::access::{deeper, put_call, put_one, put_two};
use crate::hand::{hand_over, take_tail};
use crate::types::{k_type_at, opened_type, rest_types};
use crate::walk::{enter, walk_fields};
use crate::work::{Atom, Control, Frame, Given, Pending, Tuple, Work};
use f_terms::FType;
use idx_core::{Op, OutOfMemory};
use k_terms::KNode;
use std::alloc::Global;

// What is done with an atom.
pub(crate) fn give<'a>(
    alloc: Global,
    work: &mut Work<'a>,
    given: Given,
) -> Result<Control, OutOfMemory>
    ensures steps { IfOk result (λ r. (t : ℕ → Noted) →
        Steps t work.old (controls.Give given.atom given.depth) work.new r) }
    ensures inside { IfOk result (λ r. (m : ℕ) → KeptIn m work.old → Inside m work.new r) }
{
    let Given { atom, depth } = given;
    match work.frames.pop() {
        None => {
            put_one(&mut work.out, atom, KNode::Halt)?;
            Ok(Control::Ended)
        }
        Some(Frame::Fun { x, ty }) => {
            let frame = Frame::Arg { f: atom, ty };
            enter(&mut work.frames, frame, x, depth)
        }
        Some(Frame::Arg { f, ty }) => give_argument(alloc, work, f, ty, given),
        Some(Frame::Inst { arg, ty }) => give_inst(alloc, work, arg, ty, given),
        Some(Frame::Left { op, b }) => {
            enter(&mut work.frames, Frame::Right { op, a: atom }, b, depth)
        }
        Some(Frame::Right { op, a }) => give_right(work, op, a, given),
        Some(Frame::Proj { i, ty }) => give_proj(alloc, work, i, ty, given),
        Some(Frame::Fields { rest, done, ty }) => {
            give_field(alloc, work, Tuple { rest, done, ty }, given)
        }
        Some(Frame::Tail { level }) => give_tail(alloc, work, level, given),
        Some(Frame::Test { zero, other, level }) => { give_test(work, zero, other, level, given) }
        Some(Frame::Let { body }) => give_let(work, body, given),
        Some(Frame::Open { body, ty }) => give_open(alloc, work, body, ty, given),
        Some(Frame::Leave) => give_leave(work, given),
        Some(Frame::LeaveType) => give_leave_type(work, given),
        Some(Frame::Pack { hidden, ty }) => give_pack(alloc, work, hidden, ty, given),
        Some(Frame::Ref { ty }) => give_ref(alloc, work, ty, given),
        Some(Frame::Deref { ty }) => give_deref(alloc, work, ty, given),
        Some(Frame::Cell { value }) => {
            enter(&mut work.frames, Frame::Set { cell: atom }, value, depth)
        }
        Some(Frame::Set { cell }) => give_set(work, cell, given),
    }
}

// The argument is given: the function is called, and what comes after the call is handed over.
fn give_argument<'a>(
    alloc: Global,
    work: &mut Work<'a>,
    f: Atom,
    ty: &'a FType,
    given: Given,
) -> Result<Control, OutOfMemory>
    ensures steps { IfOk result (λ r. (t : ℕ → Noted) →
        Takes t work.old (frames.Arg f ty.entry) given.atom given.depth work.new r) }
    ensures inside { IfOk result (λ r. (m : ℕ) → KeptIn m work.old → Inside m work.new r) }
{
    let Given { atom, depth } = given;
    let call = KNode::Call {
        level: depth,
        depth: work.types,
        types: Vec::new(alloc),
        count: 2,
    };
    put_call(&mut work.out, f, call, atom)?;
    hand_over(alloc, work, ty, depth)
}

// What is applied to a type is given: it is called with the type, and what comes after the call is handed over.
fn give_inst<'a>(
    alloc: Global,
    work: &mut Work<'a>,
    arg: &'a FType,
    ty: &'a FType,
    given: Given,
) -> Result<Control, OutOfMemory>
    ensures steps { IfOk result (λ r. (t : ℕ → Noted) →
        Takes t work.old (frames.Inst arg.entry ty.entry) given.atom given.depth work.new r) }
    ensures inside { IfOk result (λ r. (m : ℕ) → KeptIn m work.old → Inside m work.new r) }
{
    let Given { atom, depth } = given;
    let types = rest_types(alloc, arg, work.types, &work.levels)?;
    let call = KNode::Call {
        level: depth,
        depth: work.types,
        types,
        count: 1,
    };
    put_one(&mut work.out, atom, call)?;
    hand_over(alloc, work, ty, depth)
}

// The right operand is given: the result is named.
fn give_right<'a>(
    work: &mut Work<'a>,
    op: Op,
    a: Atom,
    given: Given,
) -> Result<Control, OutOfMemory>
    ensures steps { IfOk result (λ r. (t : ℕ → Noted) →
        Takes t work.old (frames.Right op a) given.atom given.depth work.new r) }
    ensures inside { IfOk result (λ r. (m : ℕ) → KeptIn m work.old → Inside m work.new r) }
{
    let Given { atom, depth } = given;
    put_two(&mut work.out, a, atom, KNode::Arith { level: depth, op })?;
    let inside = deeper(depth)?;
    Ok(Control::Give {
        atom: Atom::Level(depth),
        depth: inside,
    })
}

// A tuple is given: its field is named.
fn give_proj<'a>(
    alloc: Global,
    work: &mut Work<'a>,
    i: u64,
    ty: &'a FType,
    given: Given,
) -> Result<Control, OutOfMemory>
    ensures steps { IfOk result (λ r. (t : ℕ → Noted) →
        Takes t work.old (frames.Proj i ty.entry) given.atom given.depth work.new r) }
    ensures inside { IfOk result (λ r. (m : ℕ) → KeptIn m work.old → Inside m work.new r) }
{
    let Given { atom, depth } = given;
    let ty = k_type_at(alloc, ty, work.types, &work.levels)?;
    let proj = KNode::Proj {
        level: depth,
        field: i,
        ty,
    };
    put_one(&mut work.out, atom, proj)?;
    let inside = deeper(depth)?;
    Ok(Control::Give {
        atom: Atom::Level(depth),
        depth: inside,
    })
}

// A field is done.
fn give_field<'a>(
    alloc: Global,
    work: &mut Work<'a>,
    tuple: Tuple<'a>,
    given: Given,
) -> Result<Control, OutOfMemory>
    ensures steps { IfOk result (λ r. (t : ℕ → Noted) →
        FieldsGo t work.old tuple.entry.rest.now (map atom tuple.entry.done.items ++ atom given.atom ∷ [])
        (tree tuple.entry.ty.now) given.depth work.new r) }
    ensures inside { IfOk result (λ r. (m : ℕ) →
        All (λ i. i < m) tuple.entry.rest.now → KeptIn m work.old → Inside m work.new r) }
{
    let Tuple { rest, mut done, ty } = tuple;
    done.push(given.atom)?;
    let next = walk_fields(alloc, work, Tuple { rest, done, ty }, given.depth)?;
    Ok(next)
}

// What the name of a level waits for is given: that name is called, and the term ends.
fn give_tail<'a>(
    alloc: Global,
    work: &mut Work<'a>,
    level: u64,
    given: Given,
) -> Result<Control, OutOfMemory>
    ensures steps { IfOk result (λ r. (t : ℕ → Noted) →
        Takes t work.old (frames.Tail level) given.atom given.depth work.new r) }
    ensures inside { IfOk result (λ r. (m : ℕ) → KeptIn m work.old → Inside m work.new r) }
{
    let Given { atom, depth } = given;
    let call = KNode::Call {
        level: depth,
        depth: work.types,
        types: Vec::new(alloc),
        count: 1,
    };
    put_call(&mut work.out, Atom::Level(level), call, atom)?;
    Ok(Control::Ended)
}

// A test is given: one branch comes now, the other where that one has ended.
fn give_test<'a>(
    work: &mut Work<'a>,
    zero: u64,
    other: u64,
    level: u64,
    given: Given,
) -> Result<Control, OutOfMemory>
    ensures steps { IfOk result (λ r. (t : ℕ → Noted) →
        Takes t work.old (frames.Test zero other level) given.atom given.depth work.new r) }
    ensures inside { IfOk result (λ r. (m : ℕ) → zero < m → other < m → KeptIn m work.old → Inside m work.new r) }
{
    let Given { atom, depth } = given;
    put_one(&mut work.out, atom, KNode::If0)?;
    work.pending.push(Pending::Other {
        node: other,
        depth,
        types: work.types,
        level,
    })?;
    enter(&mut work.frames, Frame::Tail { level }, zero, depth)
}

// What a name of the source stands for is given: the name is the innermost one in the body, which comes now. It goes
// where the body ends; where the body isn't in tail place, it goes already where what the body gives is handed on, and
// comes again for what was begun in the body and ends later.
fn give_let<'a>(work: &mut Work<'a>, body: u64, given: Given) -> Result<Control, OutOfMemory>
    ensures steps { IfOk result (λ r. (t : ℕ → Noted) →
        Takes t work.old (frames.Let body) given.atom given.depth work.new r) }
    ensures inside { IfOk result (λ r. (m : ℕ) → body < m → KeptIn m work.old → Inside m work.new r) }
{
    let Given { atom, depth } = given;
    work.names.push(atom)?;
    work.pending.push(Pending::Leave)?;
    match take_tail(&mut work.frames) {
        Some(level) => enter(&mut work.frames, Frame::Tail { level }, body, depth),
        None => enter(&mut work.frames, Frame::Leave, body, depth),
    }
}

// A package is given: it is unpacked, and the body comes under one more type name and one more name.
fn give_open<'a>(
    alloc: Global,
    work: &mut Work<'a>,
    body: u64,
    ty: &'a FType,
    given: Given,
) -> Result<Control, OutOfMemory>
    ensures steps { IfOk result (λ r. (t : ℕ → Noted) →
        Takes t work.old (frames.Open body ty.entry) given.atom given.depth work.new r) }
    ensures inside { IfOk result (λ r. (m : ℕ) → body < m → KeptIn m work.old → Inside m work.new r) }
{
    let Given { atom, depth } = given;
    let types = work.types;
    let ty = opened_type(alloc, ty, types, &work.levels)?;
    let unpack = KNode::Unpack {
        level: depth,
        depth: types,
        ty,
    };
    put_one(&mut work.out, atom, unpack)?;
    let inside = deeper(depth)?;
    let under = deeper(types)?;
    work.types = under;
    work.levels.push(types)?;
    work.names.push(Atom::Level(depth))?;
    work.pending.push(Pending::Leave)?;
    work.pending.push(Pending::LeaveType)?;
    match take_tail(&mut work.frames) {
        Some(level) => enter(&mut work.frames, Frame::Tail { level }, body, inside),
        None => {
            work.frames.push(Frame::LeaveType)?;
            enter(&mut work.frames, Frame::Leave, body, inside)
        }
    }
}

// The innermost name goes, and comes again for what was begun under it and ends later.
fn give_leave<'a>(work: &mut Work<'a>, given: Given) -> Result<Control, OutOfMemory>
    ensures steps { IfOk result (λ r. (t : ℕ → Noted) →
        Takes t work.old frames.Leave given.atom given.depth work.new r) }
    ensures inside { IfOk result (λ r. (m : ℕ) → KeptIn m work.old → Inside m work.new r) }
{
    match work.names.pop() {
        Some(atom) => {
            work.pending.push(Pending::Enter { atom })?;
            Ok(Control::Give {
                atom: given.atom,
                depth: given.depth,
            })
        }
        None => Ok(Control::Give {
            atom: given.atom,
            depth: given.depth,
        }),
    }
}

// The innermost type name goes.
fn give_leave_type<'a>(work: &mut Work<'a>, given: Given) -> Result<Control, OutOfMemory>
    ensures steps { IfOk result (λ r. (t : ℕ → Noted) →
        Takes t work.old frames.LeaveType given.atom given.depth work.new r) }
    ensures inside { IfOk result (λ r. (m : ℕ) → KeptIn m work.old → Inside m work.new r) }
{
    match work.levels.pop() {
        Some(level) => {
            work.pending.push(Pending::EnterType { level })?;
            Ok(Control::Give {
                atom: given.atom,
                depth: given.depth,
            })
        }
        None => Ok(Control::Give {
            atom: given.atom,
            depth: given.depth,
        }),
    }
}

// What is packed is given: the package is named.
fn give_pack<'a>(
    alloc: Global,
    work: &mut Work<'a>,
    hidden: &'a FType,
    ty: &'a FType,
    given: Given,
) -> Result<Control, OutOfMemory>
    ensures steps { IfOk result (λ r. (t : ℕ → Noted) →
        Takes t work.old (frames.Pack hidden.entry ty.entry) given.atom given.depth work.new r) }
    ensures inside { IfOk result (λ r. (m : ℕ) → KeptIn m work.old → Inside m work.new r) }
{
    let Given { atom, depth } = given;
    let types = work.types;
    let hidden = k_type_at(alloc, hidden, types, &work.levels)?;
    let shape = k_type_at(alloc, ty, types, &work.levels)?;
    let pack = KNode::Pack {
        level: depth,
        depth: types,
        hidden,
        shape,
    };
    put_one(&mut work.out, atom, pack)?;
    let inside = deeper(depth)?;
    Ok(Control::Give {
        atom: Atom::Level(depth),
        depth: inside,
    })
}

// What a cell is to hold is given: the cell is named.
fn give_ref<'a>(
    alloc: Global,
    work: &mut Work<'a>,
    ty: &'a FType,
    given: Given,
) -> Result<Control, OutOfMemory>
    ensures steps { IfOk result (λ r. (t : ℕ → Noted) →
        Takes t work.old (frames.Ref ty.entry) given.atom given.depth work.new r) }
    ensures inside { IfOk result (λ r. (m : ℕ) → KeptIn m work.old → Inside m work.new r) }
{
    let Given { atom, depth } = given;
    let ty = k_type_at(alloc, ty, work.types, &work.levels)?;
    put_one(&mut work.out, atom, KNode::Cell { level: depth, ty })?;
    let inside = deeper(depth)?;
    Ok(Control::Give {
        atom: Atom::Level(depth),
        depth: inside,
    })
}

// A cell is given: what it holds is named.
fn give_deref<'a>(
    alloc: Global,
    work: &mut Work<'a>,
    ty: &'a FType,
    given: Given,
) -> Result<Control, OutOfMemory>
    ensures steps { IfOk result (λ r. (t : ℕ → Noted) →
        Takes t work.old (frames.Deref ty.entry) given.atom given.depth work.new r) }
    ensures inside { IfOk result (λ r. (m : ℕ) → KeptIn m work.old → Inside m work.new r) }
{
    let Given { atom, depth } = given;
    let ty = k_type_at(alloc, ty, work.types, &work.levels)?;
    put_one(&mut work.out, atom, KNode::Get { level: depth, ty })?;
    let inside = deeper(depth)?;
    Ok(Control::Give {
        atom: Atom::Level(depth),
        depth: inside,
    })
}

// What is put in a cell is given: the empty tuple is named.
fn give_set<'a>(work: &mut Work<'a>, cell: Atom, given: Given) -> Result<Control, OutOfMemory>
    ensures steps { IfOk result (λ r. (t : ℕ → Noted) →
        Takes t work.old (frames.Set cell) given.atom given.depth work.new r) }
    ensures inside { IfOk result (λ r. (m : ℕ) → KeptIn m work.old → Inside m work.new r) }
{
    let Given { atom, depth } = given;
    put_two(&mut work.out, cell, atom, KNode::Set { level: depth })?;
    let inside = deeper(depth)?;
    Ok(Control::Give {
        atom: Atom::Level(depth),
        depth: inside,
    })
}
