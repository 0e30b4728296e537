// One frame more, and a fault.
ghost use Rattle.std.specs.Prelude.{◌≡◌, ℕ, ◌+◌, ◌*◌, ◌<◌, ◌++◌, ◌∷◌, [], IfOk, OnOk};
ghost use Rattle.f_terms.specs.Tm.{plain};
ghost use Rattle.f_terms.specs.Limits.{nodes};
ghost use Rattle.f_terms.specs.ReadTerm.{node_at};
ghost use Rattle.f_check.specs.Walk.{Enters, Goes, left, frame_work};
ghost use Rattle.f_check.specs.declared.frame.Control.TheVariants as control;

use crate::failure::Failure;
use crate::frame::{Control, Frame, State};
use f_terms::FTerm;
use idx_core::OutOfMemory;

fn push<'a>(frames: &mut Vec<Frame<'a>>, frame: Frame<'a>) -> Result<(), OutOfMemory>
    ensures { OnOk result (frames.new.items ≡ frames.old.items ++ frame.entry ∷ []) }
{
    frames.push(frame)?;
    Ok(())
}

// Node j is next, and the frame waits for its type.
pub(crate) fn enter<'a>(
    term: &FTerm,
    state: &mut State<'a>,
    frame: Frame<'a>,
    j: u64,
) -> Result<Control, Failure>
    requires { Enters term.now state.old frame j }
    ensures goes { (m : ℕ) → 2 * nodes
        (plain (node_at term.now j)) + frame_work term.now frame.entry + left term.now state.old < m →
        Goes term.now state.new result m }
    ensures frames { IfOk result (λ c. (c ≡ control.Run j)
        × (state.new.frames.items ≡ state.old.frames.items ++ frame.entry ∷ [])) }
{
    push(&mut state.frames, frame)?;
    Ok(Control::Run(j))
}
