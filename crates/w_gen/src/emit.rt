// The code of a block, piece by piece.
ghost use Rattle.std.specs.Prelude.{◌≡◌, ℕ, suc, List, [], ◌∷◌, length, map, OnOk};
ghost use Rattle.w_terms.specs.Read.{instr, block as block_tree, end_of};
ghost use Rattle.w_laws.specs.Translate.{Code, before};
ghost use Rattle.w_gen.specs.Emit.{onto, pieces};

use idx_core::OutOfMemory;
use std::alloc::Global;
use std::mem;
use w_terms::{WBlock, WEnd, WInstr};

// The pieces that are done, and the instructions of the next one.
#[derive(Drop)]
pub(crate) struct Work {
    pub pieces: Vec<WBlock>,
    pub body: Vec<WInstr>,
}

// Nothing is done.
pub(crate) fn begin(alloc: Global) -> Work
    ensures same { (c : Code) → onto result c ≡ pieces c }
    ensures count { length result.pieces.items ≡ 0 }
{
    Work {
        pieces: Vec::new(alloc),
        body: Vec::new(alloc),
    }
}

// Puts an instruction.
#[tactic(auto, using(crate::proofs::Onto::prefixed_push))]
pub(crate) fn put(work: &mut Work, i: WInstr) -> Result<(), OutOfMemory>
    ensures same { OnOk result ((c : Code) → onto work.new c ≡ onto work.old (before (instr i) c)) }
    ensures count { OnOk result (length work.new.pieces.items ≡ length work.old.pieces.items) }
{
    work.body.push(i)?;
    Ok(())
}

// Ends a piece.
#[tactic(auto, using(crate::proofs::Onto::prefixed_end, crate::proofs::Onto::finished, crate::proofs::Onto::closed))]
pub(crate) fn finish(alloc: Global, work: &mut Work, end: WEnd) -> Result<(), OutOfMemory>
    ensures same { OnOk result ((c : Code) → onto work.new c
        ≡ onto work.old (record { seq = end_of end; more = c.seq ∷ c.more })) }
    ensures done { OnOk result (map block_tree work.new.pieces.items
        ≡ onto work.old (record { seq = end_of end; more = [] })) }
    ensures count { OnOk result (length work.new.pieces.items ≡ suc (length work.old.pieces.items)) }
{
    let body = mem::replace(&mut work.body, Vec::new(alloc));
    work.pieces.push(WBlock { body, end })?;
    Ok(())
}
