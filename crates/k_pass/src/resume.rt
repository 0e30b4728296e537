// A term has ended: what comes then.
ghost use Rattle.std.specs.Prelude.{◌≡◌, ℕ, ◌++◌, ◌∷◌, IfOk, OnOk, map};
ghost use Rattle.f_terms.specs.Noted.{Noted};
ghost use Rattle.k_terms.specs.Stream.{NName, NEnd};
ghost use Rattle.k_terms.specs.Read.{knode, ktree};
ghost use Rattle.k_pass.specs.Machine.{Nodes, ResumeIs, Follows, PendingIn, KeptIn, Inside, NextIn};
ghost use Rattle.k_pass.specs.declared.work.Pending.TheVariants as pendings;

use crate::access::{deeper, leave, leave_type, put};
use crate::types::{fix_type, gen_type, rest_type};
use crate::walk::enter;
use crate::work::{Atom, Choice, Control, Frame, Pending, Place, Work};
use f_terms::FType;
use idx_core::OutOfMemory;
use k_terms::{KNode, KType};
use std::alloc::Global;

// A code has ended and is named.
fn put_name(out: &mut Vec<KNode>, depth: u64, ty: KType) -> Result<(), OutOfMemory>
    ensures { OnOk result ((ns : Nodes) →
        map knode out.new.items ++ ns ≡ map knode out.old.items ++ NEnd ∷ NName depth (ktree ty) ∷ ns) }
{
    put(out, KNode::End)?;
    put(out, KNode::Name { level: depth, ty })?;
    Ok(())
}

// What comes where a term has ended.
pub(crate) fn resume<'a>(alloc: Global, work: &mut Work<'a>) -> Result<Option<Control>, OutOfMemory>
    ensures steps { IfOk result (λ r. (t : ℕ → Noted) → ResumeIs t work.old work.new r) }
    ensures inside { IfOk result (λ r. (m : ℕ) → KeptIn m work.old → NextIn m work.new r) }
{
    match work.pending.pop() {
        None => Ok(None),
        Some(pending) => {
            let next = follow(alloc, work, pending)?;
            Ok(Some(next))
        }
    }
}

// What was kept for later, and was taken off, comes.
#[inline(always)]
fn follow<'a>(
    alloc: Global,
    work: &mut Work<'a>,
    pending: Pending<'a>,
) -> Result<Control, OutOfMemory>
    ensures steps { IfOk result (λ r. (t : ℕ → Noted) → Follows t work.old pending.entry work.new r) }
    ensures inside { IfOk result (λ r. (m : ℕ) →
        PendingIn m pending.entry → KeptIn m work.old → Inside m work.new r) }
{
    match pending {
        Pending::Fix {
            depth,
            types,
            arg,
            res,
        } => name_fix(alloc, work, Place { depth, types }, arg, res),
        Pending::Gen { depth, types, ty } => { name_gen(alloc, work, Place { depth, types }, ty) }
        Pending::Other {
            node,
            depth,
            types,
            level,
        } => walk_other(work, node, Place { depth, types }, level),
        Pending::If0 {
            test,
            zero,
            other,
            depth,
            types,
            ty,
        } => {
            let choice = Choice { test, zero, other };
            walk_test(alloc, work, choice, Place { depth, types }, ty)
        }
        Pending::End => put_end(work),
        Pending::Leave => leave_name(work),
        Pending::LeaveType => leave_type_name(work),
        Pending::Enter { atom } => enter_name(work, atom),
        Pending::EnterType { level } => enter_type_name(work, level),
    }
}

// The body of a function has ended: the function is named, and its names go out of scope.
fn name_fix<'a>(
    alloc: Global,
    work: &mut Work<'a>,
    place: Place,
    arg: &'a FType,
    res: &'a FType,
) -> Result<Control, OutOfMemory>
    ensures steps { IfOk result (λ r. (t : ℕ → Noted) →
        Follows t work.old (pendings.Fix place.depth place.types arg.entry res.entry) work.new r) }
    ensures inside { IfOk result (λ r. (m : ℕ) →
        PendingIn m (pendings.Fix place.depth place.types arg.entry res.entry) → KeptIn m work.old →
        Inside m work.new r) }
{
    let Place { depth, types } = place;
    leave(&mut work.names);
    leave(&mut work.names);
    work.types = types;
    let ty = fix_type(alloc, arg, res, types, &work.levels)?;
    put_name(&mut work.out, depth, ty)?;
    let inside = deeper(depth)?;
    Ok(Control::Give {
        atom: Atom::Level(depth),
        depth: inside,
    })
}

// A suspended body has ended: it is named, and its type variable goes out of scope.
fn name_gen<'a>(
    alloc: Global,
    work: &mut Work<'a>,
    place: Place,
    ty: &'a FType,
) -> Result<Control, OutOfMemory>
    ensures steps { IfOk result (λ r. (t : ℕ → Noted) →
        Follows t work.old (pendings.Gen place.depth place.types ty.entry) work.new r) }
    ensures inside { IfOk result (λ r. (m : ℕ) →
        PendingIn m (pendings.Gen place.depth place.types ty.entry) → KeptIn m work.old → Inside m work.new r) }
{
    let Place { depth, types } = place;
    let under = deeper(types)?;
    let ty = gen_type(alloc, ty, under, &work.levels)?;
    leave_type(&mut work.levels);
    work.types = types;
    put_name(&mut work.out, depth, ty)?;
    let inside = deeper(depth)?;
    Ok(Control::Give {
        atom: Atom::Level(depth),
        depth: inside,
    })
}

// One branch has ended: the other one comes.
fn walk_other<'a>(
    work: &mut Work<'a>,
    node: u64,
    place: Place,
    level: u64,
) -> Result<Control, OutOfMemory>
    ensures steps { IfOk result (λ r. (t : ℕ → Noted) →
        Follows t work.old (pendings.Other node place.depth place.types level) work.new r) }
    ensures inside { IfOk result (λ r. (m : ℕ) →
        PendingIn m (pendings.Other node place.depth place.types level) → KeptIn m work.old → Inside m work.new r) }
{
    let Place { depth, types } = place;
    let mark = KNode::Else { depth: types };
    put(&mut work.out, mark)?;
    work.types = types;
    enter(&mut work.frames, Frame::Tail { level }, node, depth)
}

// What comes after an `if0` has ended: it is named, and the test comes.
fn walk_test<'a>(
    alloc: Global,
    work: &mut Work<'a>,
    choice: Choice,
    place: Place,
    ty: &'a FType,
) -> Result<Control, OutOfMemory>
    ensures steps { IfOk result (λ r. (t : ℕ → Noted) →
        Follows t work.old
        (pendings.If0 choice.test choice.zero choice.other place.depth place.types ty.entry) work.new r) }
    ensures inside { IfOk result (λ r. (m : ℕ) →
        PendingIn m (pendings.If0 choice.test choice.zero choice.other place.depth place.types ty.entry) →
        KeptIn m work.old → Inside m work.new r) }
{
    let Choice { test, zero, other } = choice;
    let Place { depth, types } = place;
    work.types = types;
    let ty = rest_type(alloc, ty, types, &work.levels)?;
    put_name(&mut work.out, depth, ty)?;
    let inside = deeper(depth)?;
    let frame = Frame::Test {
        zero,
        other,
        level: depth,
    };
    enter(&mut work.frames, frame, test, inside)
}

// The body of a code has ended.
#[inline(always)]
fn put_end<'a>(work: &mut Work<'a>) -> Result<Control, OutOfMemory>
    ensures steps { IfOk result (λ r. (t : ℕ → Noted) → Follows t work.old pendings.End work.new r) }
    ensures inside { IfOk result (λ r. (m : ℕ) →
        PendingIn m pendings.End → KeptIn m work.old → Inside m work.new r) }
{
    put(&mut work.out, KNode::End)?;
    Ok(Control::Ended)
}

// The innermost name goes.
#[inline(always)]
fn leave_name<'a>(work: &mut Work<'a>) -> Result<Control, OutOfMemory>
    ensures steps { IfOk result (λ r. (t : ℕ → Noted) → Follows t work.old pendings.Leave work.new r) }
    ensures inside { IfOk result (λ r. (m : ℕ) →
        PendingIn m pendings.Leave → KeptIn m work.old → Inside m work.new r) }
{
    leave(&mut work.names);
    Ok(Control::Ended)
}

// The innermost type name goes.
#[inline(always)]
fn leave_type_name<'a>(work: &mut Work<'a>) -> Result<Control, OutOfMemory>
    ensures steps { IfOk result (λ r. (t : ℕ → Noted) → Follows t work.old pendings.LeaveType work.new r) }
    ensures inside { IfOk result (λ r. (m : ℕ) →
        PendingIn m pendings.LeaveType → KeptIn m work.old → Inside m work.new r) }
{
    leave_type(&mut work.levels);
    Ok(Control::Ended)
}

// A name is the innermost one again.
#[inline(always)]
fn enter_name<'a>(work: &mut Work<'a>, atom: Atom) -> Result<Control, OutOfMemory>
    ensures steps { IfOk result (λ r. (t : ℕ → Noted) → Follows t work.old (pendings.Enter atom) work.new r) }
    ensures inside { IfOk result (λ r. (m : ℕ) →
        PendingIn m (pendings.Enter atom) → KeptIn m work.old → Inside m work.new r) }
{
    work.names.push(atom)?;
    Ok(Control::Ended)
}

// A type name is the innermost one again.
#[inline(always)]
fn enter_type_name<'a>(work: &mut Work<'a>, level: u64) -> Result<Control, OutOfMemory>
    ensures steps { IfOk result (λ r. (t : ℕ → Noted) → Follows t work.old (pendings.EnterType level) work.new r) }
    ensures inside { IfOk result (λ r. (m : ℕ) →
        PendingIn m (pendings.EnterType level) → KeptIn m work.old → Inside m work.new r) }
{
    work.levels.push(level)?;
    Ok(Control::Ended)
}
