// The first part of a `let` or an `open` is done.
ghost use Rattle.std.specs.Prelude.{◌≡◌, ◌≤◌, OnOk};
ghost use Rattle.types_page.specs.Walk.{bind, now, part_tree};

use crate::bound::{Bound, Found};
use crate::part::Part;
use crate::parts::node;
use crate::stacks::{pop_type, push_name, set_found};
use crate::state::State;
use crate::types::opened_of;
use f_terms::{FShape, copy};
use idx_core::OutOfMemory;
use std::alloc::Global;

/// The type of the first part is known, and the name of its value is in scope.
pub(crate) fn bind<'a>(
    alloc: Global,
    state: &mut State<'a>,
    part: Part<'a>,
    number: usize,
) -> Result<(), OutOfMemory>
    requires { state.old.around ≤ 4294967296 }
    ensures { OnOk result (now state.new ≡ bind (part_tree part.entry) number (now state.old)) }
{
    let node = node(part);
    let at = node.span.start;
    let names = state.around;
    match &node.shape {
        FShape::Let(_, _) => {
            let ty = pop_type(&mut state.types);
            let bound = Bound::Value(copy(alloc, &ty)?);
            set_found(&mut state.found, number, Found { at, names, bound });
            push_name(&mut state.scope, ty, names)
        }
        FShape::Open(_, _) => {
            let ty = opened_of(pop_type(&mut state.types));
            let bound = Bound::Opened(copy(alloc, &ty)?);
            set_found(&mut state.found, number, Found { at, names, bound });
            state.around = names + 1;
            push_name(&mut state.scope, ty, state.around)
        }
        _ => Ok(()),
    }
}
