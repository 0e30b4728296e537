// The walk along the nodes.
ghost use Rattle.std.specs.Prelude.{◌≡◌, ℕ, ◌∷◌, [], List, IfOk, OnOk, map};
ghost use Rattle.k_terms.specs.K.{KTy, KTys, kcount};
ghost use Rattle.k_terms.specs.Stream.{KNd, NCode, NProj, NArith, NCall, NPack, NEnd};
ghost use Rattle.k_terms.specs.Read.{knode};
ghost use Rattle.c_terms.specs.Read.{written};
ghost use Rattle.c_rules.specs.Emit as E;
ghost use Rattle.c_emit.specs.Read.{frame, infos_of, notes_of};
ghost use Rattle.c_emit.specs.Walked.{walked};

use crate::parts::{Frame, Info, Note};
use crate::put::{call, enter, leave, put, spot};
use crate::state::Walk;
use c_terms::CNode;
use idx_core::{Op, OutOfMemory};
use k_terms::KNode;
use std::alloc::Global;
use std::collections::VecDeque;
use std::mem;

impl Walk {
    // A code begins.
    fn open(&mut self, level: u64, count: u64) -> Result<(), OutOfMemory>
        ensures { OnOk result
            ((rest : List KNd) (depth owes : ℕ) (args : KTys) → kcount args ≡ count →
            walked self.new rest ≡ walked self.old (NCode level depth owes args ∷ rest)) }
    {
        match self.infos.pop_front() {
            None => Ok(()),
            Some(known) => {
                let frame = enter(&mut self.out, known, level, count)?;
                let frame = mem::replace(&mut self.current, frame);
                self.outer.push_front(frame)?;
                Ok(())
            }
        }
    }

    // A call.
    fn call(&mut self, level: u64, count: u64) -> Result<(), OutOfMemory>
        ensures { OnOk result
            ((rest : List KNd) (depth : ℕ) (types : KTys) →
            walked self.new rest ≡ walked self.old (NCall level depth types count ∷ rest)) }
    {
        match self.notes.pop_front() {
            None => Ok(()),
            Some(
                Note::Packs {
                    hidden: _,
                    shape: _,
                },
            ) => Ok(()),
            Some(Note::Calls(types)) => {
                let at = spot(&self.current, level)?;
                call(&mut self.out, at, types, count)?;
                Ok(())
            }
        }
    }

    // A package.
    fn pack(&mut self, level: u64) -> Result<(), OutOfMemory>
        ensures { OnOk result
            ((rest : List KNd) (depth : ℕ) (hidden shape : KTy) →
            walked self.new rest ≡ walked self.old (NPack level depth hidden shape ∷ rest)) }
    {
        match self.notes.pop_front() {
            None => Ok(()),
            Some(Note::Calls(_)) => Ok(()),
            Some(Note::Packs { hidden, shape }) => {
                let at = spot(&self.current, level)?;
                put(&mut self.out, CNode::Pack { hidden, shape })?;
                put(&mut self.out, CNode::Name(at))?;
                Ok(())
            }
        }
    }

    // A projection.
    fn project(&mut self, level: u64, field: u64) -> Result<(), OutOfMemory>
        ensures { OnOk result
            ((rest : List KNd) (ty : KTy) →
            walked self.new rest ≡ walked self.old (NProj level field ty ∷ rest)) }
    {
        let at = spot(&self.current, level)?;
        put(&mut self.out, CNode::Proj { level: at, field })?;
        Ok(())
    }

    // An operation on integers.
    fn operate(&mut self, level: u64, op: Op) -> Result<(), OutOfMemory>
        ensures { OnOk result
            ((rest : List KNd) → walked self.new rest ≡ walked self.old (NArith level op ∷ rest)) }
    {
        let at = spot(&self.current, level)?;
        put(&mut self.out, CNode::Arith { level: at, op })?;
        Ok(())
    }

    // A code ends.
    fn close(&mut self) -> Result<(), OutOfMemory>
        ensures { OnOk result ((rest : List KNd) → walked self.new rest ≡ walked self.old (NEnd ∷ rest)) }
    {
        match self.outer.pop_front() {
            None => Ok(()),
            Some(frame) => {
                let frame = mem::replace(&mut self.current, frame);
                leave(&mut self.out, frame, &self.current)?;
                Ok(())
            }
        }
    }

    // One more node.
    fn step(&mut self, node: &KNode) -> Result<(), OutOfMemory>
        ensures { OnOk result ((rest : List KNd) → walked self.new rest ≡ walked self.old (knode node.now ∷ rest)) }
    {
        match node {
            KNode::Var(l) => put(&mut self.out, CNode::Var(spot(&self.current, *l)?)),
            KNode::Int(n) => put(&mut self.out, CNode::Int(*n)),
            KNode::Tuple(n) => put(&mut self.out, CNode::Tuple(*n)),
            KNode::Code { level, args, .. } => Ok(self.open(*level, args.len() as u64)?),
            KNode::End => self.close(),
            KNode::Name { level, .. } => put(
                &mut self.out,
                CNode::Name(spot(&self.current, *level)?),
            ),
            KNode::Proj { level, field, .. } => Ok(self.project(*level, *field)?),
            KNode::Arith { level, op } => Ok(self.operate(*level, *op)?),
            KNode::Pack { level, .. } => Ok(self.pack(*level)?),
            KNode::Unpack { level, .. } => put(
                &mut self.out,
                CNode::Unpack(spot(&self.current, *level)?),
            ),
            KNode::Cell { level, .. } => put(
                &mut self.out,
                CNode::Cell(spot(&self.current, *level)?),
            ),
            KNode::Get { level, .. } => put(
                &mut self.out,
                CNode::Get(spot(&self.current, *level)?),
            ),
            KNode::Set { level } => put(&mut self.out, CNode::Set(spot(&self.current, *level)?)),
            KNode::Call { level, count, .. } => Ok(self.call(*level, *count)?),
            KNode::If0 => put(&mut self.out, CNode::If0),
            KNode::Else { .. } => put(&mut self.out, CNode::Else),
            KNode::Halt => put(&mut self.out, CNode::Halt),
        }
    }
}

/// The nodes of the converted term. An error is want of memory.
pub fn emit(
    alloc: Global,
    nodes: &[KNode],
    top: Frame,
    infos: VecDeque<Info>,
    notes: VecDeque<Note>,
) -> Result<Vec<CNode>, OutOfMemory>
    ensures { IfOk result
        (λ r. written r.items [] ≡ E.emit (map knode nodes.now) (frame top) [] (infos_of infos.items)
        (notes_of notes.items)) }
{
    let mut walk = Walk {
        out: Vec::new(alloc),
        current: top,
        outer: VecDeque::new(alloc),
        infos,
        notes,
    };
    for node in nodes {
        walk.step(node)?;
    }
    Ok(walk.out)
}
