// Closure conversion.
ghost use Rattle.std.specs.Prelude.{◌≡◌, ◌↔◌, ◌+◌, ◌*◌, ℕ, ℤ, [], IfOk, map};
ghost use Rattle.calc_core.specs.Ends.{Halted};
ghost use Rattle.k_terms.specs.Bound.{KFits};
ghost use Rattle.k_terms.specs.Each.{KTypedWith};
ghost use Rattle.k_terms.specs.Meaning.{krun};
ghost use Rattle.k_terms.specs.Reach.{KWithin};
ghost use Rattle.k_terms.specs.Whole as K;
ghost use Rattle.k_terms.specs.Read.{knode};
ghost use Rattle.c_terms.specs.Bound.{CFits};
ghost use Rattle.c_terms.specs.Each.{CTypedWith};
ghost use Rattle.c_terms.specs.Meaning.{crun};
ghost use Rattle.c_terms.specs.Reach.{CWithin};
ghost use Rattle.c_terms.specs.Typing.{CTyped};
ghost use Rattle.c_terms.specs.Read.{written};
ghost use Rattle.c_terms.specs.Term as C;
ghost use Rattle.c_rules.specs.Close.{close_of};
ghost use Rattle.c_laws.specs.Row.{IsTranslation};
ghost use Rattle.c_laws.specs.Walks.{top_frame, walks, all_known};
ghost use Rattle.c_emit.specs.Read.{frame, infos_of, notes_of};
ghost use Rattle.c_pass.specs.Read.{all_told};

use crate::clues::join;
use crate::know::know;
use crate::state::Knowledge;
use c_emit::emit::emit;
use c_emit::sweep::sweep;
use c_emit::tsweep::tsweep;
use c_emit::{Frame, Info, Note};
use c_laws::laws::{bound_law, meaning_law, scope_law, translation_law, types_law};
use c_laws::walk_laws::walks_law;
use c_rules::Levels;
use c_terms::{CNode, CProgram, CType};
use idx_core::OutOfMemory;
use k_terms::laws::within_is_typed_law;
use k_terms::{KNode, KProgram};
use std::alloc::Global;
use std::collections::VecDeque;

// Outside every code.
fn top(alloc: Global) -> Frame
    ensures { frame result ≡ top_frame }
{
    Frame {
        level: 0,
        split: 0,
        first: 0,
        start: 0,
        kept: Levels::none(alloc),
        apply: Vec::new(alloc),
        hidden: CType::Int,
        shape: CType::Int,
    }
}

// What the last walk is told of the codes, and of the calls and packages.
fn known(alloc: Global, nodes: &[KNode]) -> Result<(VecDeque<Info>, VecDeque<Note>), OutOfMemory>
    ensures infos { IfOk result (λ r. infos_of r.0.items ≡ all_told (all_known (map knode nodes.now)).infos) }
    ensures notes { IfOk result (λ r. notes_of r.1.items ≡ (all_known (map knode nodes.now)).notes) }
{
    let found = sweep(alloc, nodes)?;
    let types = tsweep(alloc, nodes)?;
    let clues = join(alloc, found, types)?;
    let walk = know(alloc, nodes, clues)?;
    let Knowledge {
        bounds: _,
        side: _,
        outer: _,
        clues: _,
        infos,
        notes,
    } = walk;
    Ok((infos, notes))
}

// The nodes of the converted term.
fn converted(alloc: Global, nodes: &[KNode]) -> Result<Vec<CNode>, OutOfMemory>
    ensures { IfOk result (λ r. written r.items [] ≡ walks (map knode nodes.now)) }
{
    let (infos, notes) = known(alloc, nodes)?;
    let out = emit(alloc, nodes, top(alloc), infos, notes)?;
    Ok(out)
}

// The closed program, by its translation alone.
fn translated(alloc: Global, program: &KProgram) -> Result<CProgram, OutOfMemory>
    ensures same { IfOk result (λ r. C.term_of r ≡ close_of (K.term_of program.now)) }
    ensures rules { IfOk result (λ r. IsTranslation (K.term_of program.now) (C.term_of r)) }
{
    within_is_typed_law();
    scope_law();
    bound_law();
    translation_law();
    walks_law();
    let out = converted(alloc, program.nodes())?;
    Ok(CProgram::new(out))
}

/// The closed program of a program, by the rules of closure conversion. It is typed. Where the program before fits N
/// and R, it fits 10 * N + 1 and R + 4; within any number of calls it halts as the program before, and enters the same
/// codes. Answers want of memory alone.
pub fn close(alloc: Global, program: &KProgram) -> Result<CProgram, OutOfMemory>
    ensures same { IfOk result (λ r. C.term_of r ≡ close_of (K.term_of program.now)) }
    ensures rules { IfOk result (λ r. IsTranslation (K.term_of program.now) (C.term_of r)) }
    ensures types { IfOk result (λ r. ∥ CTyped 0 [] (C.term_of r) ∥₁) }
    ensures reach { IfOk result
        (λ r. (N R B : ℕ) → KTypedWith (KWithin N R B) 0 [] (K.term_of program.now) →
        CTypedWith (CWithin (N + 1) (R + 4) (N + B + 1)) 0 [] (C.term_of r)) }
    ensures bound { IfOk result (λ r. (N R : ℕ) → KFits N R (K.term_of program.now) →
        CFits (10 * N + 1) (R + 4) (C.term_of r)) }
    ensures halts { IfOk result
        (λ r. (n : ℕ) (i : ℤ) →
        (crun n (C.term_of r)).end ≡ Halted i ↔ (krun n (K.term_of program.now)).end ≡ Halted i) }
    ensures codes { IfOk result (λ r. (n : ℕ) →
        (crun n (C.term_of r)).entered ≡ (krun n (K.term_of program.now)).entered) }
{
    within_is_typed_law();
    types_law();
    bound_law();
    meaning_law();
    let made = translated(alloc, program)?;
    Ok(made)
}
