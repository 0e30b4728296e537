// What is to be known of the codes, calls and packages, by a walk along the nodes.
ghost use Rattle.std.specs.Prelude.{◌≡◌, ℕ, List, [], ◌∷◌, suc, IfOk, OnOk, map};
ghost use Rattle.k_terms.specs.K.{KTy};
ghost use Rattle.k_terms.specs.Stream.{KNd, NEnd, NElse, NPack, NUnpack};
ghost use Rattle.k_terms.specs.Read.{knode, ktree, ktys};
ghost use Rattle.c_terms.specs.Read.{ctys};
ghost use Rattle.c_rules.specs.Close as L;
ghost use Rattle.c_rules.specs.Know as W;
ghost use Rattle.c_laws.specs.Walks.{top_side};
ghost use Rattle.calc_core.specs.Read.{joined};
ghost use Rattle.c_emit.specs.Names.{side};
ghost use Rattle.c_pass.specs.Read.{Binds, bounds, clue, clues_of, told_known};
ghost use Rattle.c_pass.specs.Read.{total, opened_total, called_total};

use crate::bounds::{bind, bind_all};
use crate::info::{info_from, side_of};
use crate::state::{Bound, Clue, CodeNode, Header, Knowledge, Sides};
use crate::translate::closed;
use c_emit::close_type::close_types;
use c_emit::{Found, Note, Renaming, Side};
use c_rules::Levels;
use c_terms::CType;
use calc_core::{copy, copy_all};
use idx_core::{OutOfMemory, sum};
use k_terms::{KNode, KType};
use std::alloc::Global;
use std::collections::VecDeque;
use std::mem;

// Binds a variable where `f` stands.
fn bind_now(xs: &mut Vec<Bound>, f: &Side, level: u64, ty: KType) -> Result<(), OutOfMemory>
    ensures { OnOk result (bounds xs.new.items ≡ W.bind (bounds xs.old.items) level (ktree ty)
        (W.side_depth (side f.now))) }
{
    let depth = sum(f.owes, f.depth)?;
    bind(xs, level, ty, depth)?;
    Ok(())
}

// The types of a call.
fn call_types(alloc: Global, f: &Side, types: &[KType]) -> Result<Vec<CType>, OutOfMemory>
    ensures { IfOk result (λ r. ctys r.items ≡ L.ctypes (W.side_var (side f.now)) (ktys types.now)) }
{
    let made = Vec::new(alloc);
    let made = close_types(alloc, types, &Renaming::Here { side: f, raise: 0 }, made)?;
    Ok(made)
}

impl Knowledge {
    // A code begins.
    fn open(&mut self, alloc: Global, node: &CodeNode, c: Clue) -> Result<(), OutOfMemory>
        ensures { OnOk result
            ((rest : List KNd) → total self.new rest ≡ opened_total self.old node.now.level node.now.depth
            node.now.owes (ktys node.now.args.now) (clue c) rest) }
    {
        let Clue { kept, own, types } = c;
        let own_type = KType::Code {
            owes: node.owes,
            args: copy_all(alloc, node.args)?,
        };
        let g = side_of(alloc, &self.bounds, types, &kept.list, node)?;
        let header = Header {
            depth: node.depth,
            owes: node.owes,
            args: node.args,
            own_type: &own_type,
        };
        let found = Found { kept, own };
        let sides = Sides {
            around: &self.side,
            inside: &g,
        };
        let known = info_from(alloc, &header, found, &self.bounds, &sides)?;
        self.infos.push_back(known)?;
        bind(&mut self.bounds, node.level, own_type, node.depth)?;
        let inside = sum(node.owes, node.depth)?;
        let first = sum(node.level, 1)?;
        bind_all(alloc, &mut self.bounds, first, node.args, inside)?;
        let around = mem::replace(&mut self.side, g);
        self.outer.push_front(around)?;
        Ok(())
    }

    // A variable of this type is bound.
    fn bind_made(&mut self, level: u64, ty: KType) -> Result<(), OutOfMemory>
        ensures { OnOk result
            ((rest : List KNd) (n : KNd) → Binds n level (ktree ty) → total self.new rest ≡ total self.old (n ∷ rest)) }
    {
        bind_now(&mut self.bounds, &self.side, level, ty)?;
        Ok(())
    }

    // A variable of the type that stands on its node is bound.
    fn bind(&mut self, alloc: Global, level: u64, ty: &KType) -> Result<(), OutOfMemory>
        ensures { OnOk result
            ((rest : List KNd) (n : KNd) → Binds n level (ktree ty.now) →
            total self.new rest ≡ total self.old (n ∷ rest)) }
    {
        let ty = copy(alloc, ty)?;
        self.bind_made(level, ty)?;
        Ok(())
    }

    // The code ends.
    fn close(&mut self)
        ensures { (rest : List KNd) → total self.new rest ≡ total self.old (NEnd ∷ rest) }
    {
        match self.outer.pop_front() {
            None => (),
            Some(around) => {
                self.side = around;
            }
        }
    }

    // The other branch of a choice begins, under so many type variables.
    fn turn(&mut self, depth: u64)
        ensures { (rest : List KNd) → total self.new rest ≡ total self.old (NElse depth ∷ rest) }
    {
        self.side.calling = false;
        self.side.owes = depth.saturating_sub(self.side.depth);
    }

    // A call.
    fn call(&mut self, alloc: Global, types: &[KType]) -> Result<(), OutOfMemory>
        ensures { OnOk result ((rest : List KNd) → total self.new rest ≡ called_total self.old (ktys types.now) rest) }
    {
        self.side.calling = true;
        let made = call_types(alloc, &self.side, types)?;
        self.notes.push_back(Note::Calls(made))?;
        Ok(())
    }

    // A package.
    fn pack(
        &mut self,
        alloc: Global,
        level: u64,
        hidden: &KType,
        shape: &KType,
    ) -> Result<(), OutOfMemory>
        ensures { OnOk result
            ((rest : List KNd) (depth : ℕ) →
            total self.new rest ≡ total self.old (NPack level depth (ktree hidden.now) (ktree shape.now) ∷ rest)) }
    {
        let types = Note::Packs {
            hidden: closed(alloc, hidden, &self.side, false, 0)?,
            shape: closed(alloc, shape, &self.side, false, 0)?,
        };
        self.notes.push_back(types)?;
        bind_now(&mut self.bounds, &self.side, level, copy(alloc, shape)?)?;
        Ok(())
    }

    // A package is opened.
    fn unpack(&mut self, alloc: Global, level: u64, ty: &KType) -> Result<(), OutOfMemory>
        ensures { OnOk result
            ((rest : List KNd) (depth : ℕ) →
            total self.new rest ≡ total self.old (NUnpack level depth (ktree ty.now) ∷ rest)) }
    {
        self.side.owes = sum(self.side.owes, 1)?;
        bind_now(&mut self.bounds, &self.side, level, copy(alloc, ty)?)?;
        Ok(())
    }

    fn step(&mut self, alloc: Global, node: &KNode) -> Result<(), OutOfMemory>
        ensures { OnOk result ((rest : List KNd) → total self.new rest ≡ total self.old (knode node.now ∷ rest)) }
    {
        match node {
            KNode::Code {
                level,
                depth,
                owes,
                args,
            } => match self.clues.pop_front() {
                None => Ok(()),
                Some(c) => {
                    let node = CodeNode {
                        level: *level,
                        depth: *depth,
                        owes: *owes,
                        args,
                    };
                    self.open(alloc, &node, c)?;
                    Ok(())
                }
            },
            KNode::End => {
                self.close();
                Ok(())
            }
            KNode::Name { level, ty } => Ok(self.bind(alloc, *level, ty)?),
            KNode::Proj { level, ty, .. } => Ok(self.bind(alloc, *level, ty)?),
            KNode::Arith { level, .. } => Ok(self.bind_made(*level, KType::Int)?),
            KNode::Pack {
                level,
                hidden,
                shape,
                ..
            } => Ok(self.pack(alloc, *level, hidden, shape)?),
            KNode::Unpack { level, ty, .. } => Ok(self.unpack(alloc, *level, ty)?),
            KNode::Cell { level, ty } => Ok(self.bind(alloc, *level, ty)?),
            KNode::Get { level, ty } => Ok(self.bind(alloc, *level, ty)?),
            KNode::Set { level } => Ok(self.bind_made(*level, KType::Tuple(Vec::new(alloc)))?),
            KNode::Call { types, .. } => Ok(self.call(alloc, types)?),
            KNode::Else { depth } => {
                self.turn(*depth);
                Ok(())
            }
            _ => Ok(()),
        }
    }
}

/// What the last walk is told of the codes, and of the calls and packages, in the order of the nodes.
pub fn know(alloc: Global, nodes: &[KNode], clues: VecDeque<Clue>) -> Result<Knowledge, OutOfMemory>
    ensures { IfOk result
        (λ r. total r [] ≡ told_known (W.know (map knode nodes.now) [] top_side [] (clues_of clues.items))) }
{
    let side = Side {
        depth: 0,
        owes: 0,
        kept: Levels::none(alloc),
        calling: false,
    };
    let mut walk = Knowledge {
        bounds: Vec::new(alloc),
        side,
        outer: VecDeque::new(alloc),
        clues,
        infos: VecDeque::new(alloc),
        notes: VecDeque::new(alloc),
    };
    for node in nodes {
        walk.step(alloc, node)?;
    }
    Ok(walk)
}
