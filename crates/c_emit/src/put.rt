// What is written for one node.
ghost use Rattle.std.specs.Prelude.{◌≡◌, ℕ, ◌∷◌, List, IfOk, OnOk};
ghost use Rattle.c_terms.specs.Stream as S;
ghost use Rattle.calc_core.specs.Ends.{after_one};
ghost use Rattle.c_terms.specs.Read.{cnode, ctree, ctys, written};
ghost use Rattle.c_rules.specs.Emit as E;
ghost use Rattle.c_emit.specs.Read.{frame, info};

use crate::parts::{Frame, Info, Inside};
use c_terms::{CNode, CType};
use idx_core::{OutOfMemory, sum};

/// One more node.
pub fn put(out: &mut Vec<CNode>, node: CNode) -> Result<(), OutOfMemory>
    ensures { OnOk result ((rest : List S.CNd) →
        written out.new.items rest ≡ written out.old.items (cnode node ∷ rest)) }
{
    out.push(node)?;
    Ok(())
}

/// Where a level of the source stands.
pub fn spot(f: &Frame, l: u64) -> Result<u64, OutOfMemory>
    ensures { IfOk result (λ r. r ≡ E.spot (frame f.now) l) }
{
    if f.split <= l {
        sum(l - f.split, f.start)
    } else if f.level < l {
        sum(l - f.level, 1)
    } else if l < f.level {
        sum(f.first, f.kept.below(l))
    } else {
        sum(f.first, f.kept.list.len() as u64)
    }
}

// The variables of these levels.
fn put_spots(out: &mut Vec<CNode>, f: &Frame, levels: &[u64]) -> Result<(), OutOfMemory>
    ensures { OnOk result
        ((rest : List S.CNd) →
        written out.new.items rest ≡ written out.old.items (E.spots (frame f.now) levels.now rest)) }
{
    for l in levels {
        let at = spot(f, *l)?;
        put(out, CNode::Var(at))?;
    }
    Ok(())
}

// k fields of the environment, named from level `first` on.
fn put_fields(out: &mut Vec<CNode>, k: u64, first: u64) -> Result<(), OutOfMemory>
    ensures { OnOk result ((rest : List S.CNd) →
        written out.new.items rest ≡ written out.old.items (E.fields k first 1 rest)) }
{
    let mut level = first;
    for i in 0..k {
        put(out, CNode::Var(1))?;
        put(
            out,
            CNode::Proj {
                level,
                field: i + 1,
            },
        )?;
        level = sum(level, 1)?;
    }
    Ok(())
}

// The code's own closure, where it is used, named at a level; the first level after it.
fn put_own(out: &mut Vec<CNode>, own: bool, inside: Inside, level: u64) -> Result<u64, OutOfMemory>
    ensures start { IfOk result (λ r. r ≡ after_one own level) }
    ensures nodes { OnOk result ((i : E.Info) (rest : List S.CNd) →
        i.apply_in ≡ ctys inside.apply.items → i.hidden_in ≡ ctree inside.hidden → i.shape_in ≡ ctree inside.shape →
        written out.new.items rest ≡ written out.old.items (E.own_closure own level i rest)) }
{
    if own {
        let Inside {
            apply,
            hidden,
            shape,
        } = inside;
        put(out, CNode::Var(0))?;
        put(out, CNode::Apply(apply))?;
        put(out, CNode::Var(1))?;
        put(out, CNode::Tuple(2))?;
        put(out, CNode::Pack { hidden, shape })?;
        put(out, CNode::Name(level))?;
        let start = sum(level, 1)?;
        Ok(start)
    } else {
        Ok(level)
    }
}

/// Begins a code.
pub fn enter(
    out: &mut Vec<CNode>,
    known: Info,
    level: u64,
    count: u64,
) -> Result<Frame, OutOfMemory>
    ensures frame { IfOk result (λ f. frame f ≡ E.frame_of (info known) level count) }
    ensures nodes { OnOk result
        ((rest : List S.CNd) → written out.new.items rest ≡ written out.old.items
        (E.opened (info known) count rest)) }
{
    let Info {
        kept,
        own,
        owes,
        args,
        apply,
        hidden,
        shape,
        inside,
    } = known;
    let split = sum(count, level)?;
    let split = sum(split, 1)?;
    let first = sum(count, 2)?;
    let length = kept.list.len() as u64;
    let last = sum(first, length)?;
    put(out, CNode::Code { owes, args })?;
    put_fields(out, length, first)?;
    let start = put_own(out, own, inside, last)?;
    Ok(Frame {
        level,
        split,
        first,
        start,
        kept,
        apply,
        hidden,
        shape,
    })
}

/// Ends a code.
pub fn leave(out: &mut Vec<CNode>, f: Frame, g: &Frame) -> Result<(), OutOfMemory>
    ensures { OnOk result
        ((rest : List S.CNd) →
        written out.new.items rest ≡ written out.old.items (E.closed (frame f) (frame g.now) rest)) }
{
    let Frame {
        level: _,
        split: _,
        first: _,
        start: _,
        kept,
        apply,
        hidden,
        shape,
    } = f;
    put(out, CNode::End)?;
    put(out, CNode::Apply(apply))?;
    put_spots(out, g, &kept.list)?;
    put(out, CNode::Tuple(kept.list.len() as u64))?;
    put(out, CNode::Tuple(2))?;
    put(out, CNode::Pack { hidden, shape })?;
    Ok(())
}

/// Calls what was just put.
pub fn call(out: &mut Vec<CNode>, at: u64, types: Vec<CType>, count: u64) -> Result<(), OutOfMemory>
    ensures { OnOk result
        ((rest : List S.CNd) →
        written out.new.items rest ≡ written out.old.items (E.called at (ctys types.items) count rest)) }
{
    let code = sum(at, 1)?;
    let env = sum(at, 2)?;
    let count = sum(count, 1)?;
    put(out, CNode::Unpack(at))?;
    put(out, CNode::Var(at))?;
    put(
        out,
        CNode::Proj {
            level: code,
            field: 1,
        },
    )?;
    put(out, CNode::Var(at))?;
    put(
        out,
        CNode::Proj {
            level: env,
            field: 2,
        },
    )?;
    put(out, CNode::Var(code))?;
    put(out, CNode::Call { types, count })?;
    put(out, CNode::Var(env))?;
    Ok(())
}
