// What could stand at the place of a fault.
ghost use Rattle.std.specs.Prelude.{◌≡◌, IfOk};
ghost use Rattle.talc_core.specs.Wanted.{by_grammar, CouldStand};

use crate::fault::Fault;
use f_terms::Code;
use idx_core::OutOfMemory;
use std::alloc::Global;
use t_terms::TCode;
use talc_wanted::{source_wanted, tal_wanted};

// Whether a fault is by the grammar.
fn by_grammar(fault: Fault) -> bool
    ensures { result ≡ by_grammar fault }
{
    matches!(
        fault,
        Fault::Source(Code::E03 | Code::E04, _) | Fault::Tal(TCode::T03, _)
    )
}

// The line on what could stand at the place of a fault that is by the grammar; of any other nothing.
pub(crate) fn could_stand(alloc: Global, text: &[u8], fault: Fault) -> Result<Vec<u8>, OutOfMemory>
    ensures { IfOk result (λ line. CouldStand text.now fault line.items) }
{
    if !by_grammar(fault) {
        return Ok(Vec::new(alloc));
    }
    match fault {
        Fault::Source(_, place) => source_wanted(alloc, text, place),
        Fault::Tal(_, place) => tal_wanted(alloc, text, place),
    }
}
