// Tail place, and what comes after a term that is in none.
ghost use Rattle.std.specs.Prelude.{◌≡◌, ℕ, suc, ◌++◌, ◌∷◌, [], IfOk, MatchOption};
ghost use Rattle.f_terms.specs.Noted.{Noted};
ghost use Rattle.f_terms.specs.Read.{tree};
ghost use Rattle.k_laws.specs.Cps.{kat};
ghost use Rattle.k_pass.specs.Machine.{at, Hands, Opens, IsRestless, tail_of, KeptIn, Inside};
ghost use Rattle.k_pass.specs.declared.work.Atom.TheVariants as atoms;
ghost use Rattle.k_pass.specs.declared.work.Control.TheVariants as controls;
ghost use Rattle.k_pass.specs.declared.work.Frame.TheVariants as frames;

use crate::access::{deeper, put, put_atom};
use crate::types::rest_types;
use crate::work::{Atom, Control, Frame, Pending, Work};
use f_terms::FType;
use idx_core::OutOfMemory;
use k_terms::KNode;
use std::alloc::Global;

// The level of the name that a frame hands its atom to.
fn tail_level(frame: &Frame) -> Option<u64>
    ensures { result ≡ tail_of frame.now }
{
    match frame {
        Frame::Tail { level } => Some(*level),
        _ => None,
    }
}

// The name that a term hands its atom to, where it is in tail place; it is handed over now.
pub(crate) fn take_tail(stack: &mut Vec<Frame>) -> Option<u64>
    ensures { (t : ℕ → Noted) → MatchOption result
        ((stack.new.items ≡ stack.old.items) × IsRestless t stack.old.items)
        (λ l. stack.old.items ≡ stack.new.items ++ frames.Tail l ∷ []) }
{
    let count = stack.len();
    if count == 0 {
        return None;
    }
    match tail_level(&stack[count - 1]) {
        None => None,
        Some(level) => {
            stack.truncate(count - 1);
            Some(level)
        }
    }
}

// The code of what comes after a term is begun, and its argument is given. What is pending comes where it has ended.
pub(crate) fn open_rest<'a>(
    alloc: Global,
    work: &mut Work<'a>,
    ty: &FType,
    pending: Pending<'a>,
    depth: u64,
) -> Result<Control, OutOfMemory>
    ensures { IfOk result (λ c. (c ≡ controls.Give (atoms.Level (suc depth)) (suc (suc depth)))
        × Opens work.old (kat work.old.types (at work.old).0 (tree ty.now)) depth pending.entry work.new) }
{
    let types = work.types;
    let args = rest_types(alloc, ty, types, &work.levels)?;
    let code = KNode::Code {
        level: depth,
        depth: types,
        owes: 0,
        args,
    };
    put(&mut work.out, code)?;
    work.pending.push(pending)?;
    let level = deeper(depth)?;
    let inside = deeper(level)?;
    Ok(Control::Give {
        atom: Atom::Level(level),
        depth: inside,
    })
}

// What comes after a term is written as the last argument of a call.
pub(crate) fn hand_over<'a>(
    alloc: Global,
    work: &mut Work<'a>,
    ty: &FType,
    depth: u64,
) -> Result<Control, OutOfMemory>
    ensures steps { IfOk result (λ r. (t : ℕ → Noted) →
        Hands t work.old (kat work.old.types (at work.old).0 (tree ty.now)) depth work.new r) }
    ensures inside { IfOk result (λ r. (m : ℕ) → KeptIn m work.old → Inside m work.new r) }
{
    match take_tail(&mut work.frames) {
        Some(level) => {
            put_atom(&mut work.out, Atom::Level(level))?;
            Ok(Control::Ended)
        }
        None => open_rest(alloc, work, ty, Pending::End, depth),
    }
}
