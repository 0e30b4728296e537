// Reading the source, and writing nodes.
ghost use Rattle.std.specs.Prelude.{◌≡◌, suc, List, ◌∷◌, ◌++◌, IfOk, OnOk, map, length, ◌<◌, ◌≤◌};
ghost use Rattle.std.specs.List.{All};
ghost use Rattle.k_terms.specs.Read.{knode};
ghost use Rattle.f_terms.specs.NotedTerm.{noted_at, noted_node};
ghost use Rattle.f_terms.specs.ReadTerm.{count};
ghost use Rattle.f_terms.specs.Shape.{kids};
ghost use Rattle.k_laws.specs.Cps.{type_level, atom_at};
ghost use Rattle.k_pass.specs.Emit.{atom_node};
ghost use Rattle.k_pass.specs.Machine.{Nodes, atom, levels as levels_of, atoms, inner};

use crate::work::Atom;
use f_terms::{FNode, FTerm, FType, typed_node};
use idx_core::OutOfMemory;
use k_terms::KNode;

// Node i, and its type.
pub(crate) fn node_at<'a>(term: &'a FTerm, types: &'a [FType], i: u64) -> (&'a FNode, &'a FType)
    requires here { i < count term.now }
    requires table { count term.now ≤ length types.now }
    ensures tree { noted_at term.now types.now i ≡ noted_node (noted_at term.now types.now)
        (result.0.now, result.1.now) }
    ensures kids { All (λ k. k < count term.now) (kids result.0.now) }
{
    typed_node(term, types, i)
}

// The level of a type name of the source.
pub(crate) fn level_of(levels: &[u64], i: u64) -> u64
    ensures { result ≡ type_level (levels_of levels.now) i }
{
    let count = levels.len() as u64;
    if i < count {
        levels[(count - 1 - i) as usize]
    } else {
        0
    }
}

// What stands for a source name.
pub(crate) fn atom_of(names: &[Atom], i: u64) -> Atom
    ensures { atom result ≡ atom_at (atoms names.now) i }
{
    let count = names.len() as u64;
    if i < count {
        names[(count - 1 - i) as usize]
    } else {
        Atom::Level(0)
    }
}

// The innermost source name goes.
pub(crate) fn leave(names: &mut Vec<Atom>)
    ensures { atoms names.new.items ≡ inner (atoms names.old.items) }
{
    names.pop();
}

// The innermost type name goes.
pub(crate) fn leave_type(levels: &mut Vec<u64>)
    ensures { levels_of levels.new.items ≡ inner (levels_of levels.old.items) }
{
    levels.pop();
}

// One name more.
pub(crate) fn deeper(depth: u64) -> Result<u64, OutOfMemory>
    ensures { IfOk result (λ d. d ≡ suc depth) }
{
    match depth.checked_add(1) {
        Some(d) => Ok(d),
        None => Err(OutOfMemory),
    }
}

pub(crate) fn put(out: &mut Vec<KNode>, made: KNode) -> Result<(), OutOfMemory>
    ensures { OnOk result ((ns : Nodes) → map knode out.new.items ++ ns ≡ map knode out.old.items ++ knode made ∷ ns) }
{
    out.push(made)?;
    Ok(())
}

// An atom.
pub(crate) fn put_atom(out: &mut Vec<KNode>, a: Atom) -> Result<(), OutOfMemory>
    ensures { OnOk result ((ns : Nodes) →
        map knode out.new.items ++ ns ≡ map knode out.old.items ++ atom_node (atom a) ∷ ns) }
{
    match a {
        Atom::Level(level) => put(out, KNode::Var(level)),
        Atom::Literal(n) => put(out, KNode::Int(n)),
    }
}

// An atom and what takes it.
pub(crate) fn put_one(out: &mut Vec<KNode>, a: Atom, made: KNode) -> Result<(), OutOfMemory>
    ensures { OnOk result ((ns : Nodes) →
        map knode out.new.items ++ ns ≡ map knode out.old.items ++ atom_node (atom a) ∷ knode made ∷ ns) }
{
    put_atom(out, a)?;
    put(out, made)?;
    Ok(())
}

// Two atoms and what takes them.
pub(crate) fn put_two(
    out: &mut Vec<KNode>,
    a: Atom,
    b: Atom,
    made: KNode,
) -> Result<(), OutOfMemory>
    ensures { OnOk result ((ns : Nodes) →
        map knode out.new.items ++ ns ≡ map knode out.old.items ++ atom_node (atom a) ∷ atom_node (atom b)
        ∷ knode made ∷ ns) }
{
    put_atom(out, a)?;
    put_one(out, b, made)?;
    Ok(())
}

// A call, between the code and the first argument.
pub(crate) fn put_call(
    out: &mut Vec<KNode>,
    f: Atom,
    call: KNode,
    x: Atom,
) -> Result<(), OutOfMemory>
    ensures { OnOk result ((ns : Nodes) →
        map knode out.new.items ++ ns ≡ map knode out.old.items ++ atom_node (atom f) ∷ knode call
        ∷ atom_node (atom x) ∷ ns) }
{
    put_one(out, f, call)?;
    put_atom(out, x)?;
    Ok(())
}
