// Programs.
ghost use Rattle.std.specs.Prelude.{◌≡◌, true, IfOk, OnOk};
ghost use Rattle.c_terms.specs.Read.{cnode, ctree};
ghost use Rattle.c_terms.specs.Term.{term_of};
ghost use Rattle.let_types.specs.Known.{known_step};
ghost use Rattle.let_types.specs.KnownRead.{known as plain};
ghost use Rattle.kc_notation.specs.Notation.{c_text};
ghost use Rattle.let_types.specs.TypeTexts.{note_text};
ghost use Rattle.kc_notation.specs.Standing.{IsPage};
ghost use Rattle.kc_notation.specs.ClosedWalk.{blank, noted};

use crate::page::{Body, Page, Scope};
use c_terms::{CNode, CProgram};
use idx_core::OutOfMemory;
use let_types::{Known, Named, level_bound, write_type};
use page_core::Pieces;
use std::alloc::Global;
use std::collections::VecDeque;

/// Nothing is written yet.
pub fn blank(alloc: Global) -> Result<Page, OutOfMemory>
    ensures { IfOk result (λ page. IsPage page blank) }
{
    let mut pieces = Pieces::new(alloc);
    let empty = pieces.bytes(Vec::new(alloc))?;
    let body = Body {
        text: empty,
        values: VecDeque::new(alloc),
        called: false,
        scope: Scope {
            types: 0,
            indent: 0,
        },
        branches: VecDeque::new(alloc),
    };
    Ok(Page {
        alloc,
        pieces,
        empty,
        body,
        around: VecDeque::new(alloc),
    })
}

// What stands behind a name.
fn note_of(alloc: Global, name: &Named) -> Result<Vec<u8>, OutOfMemory>
    ensures { IfOk result (λ note. note.items ≡ note_text true name.now.types (ctree name.now.ty)) }
{
    let mut note = Vec::new(alloc);
    note.extend_from_slice(b": ")?;
    write_type(&mut note, &name.ty, name.types)?;
    Ok(note)
}

// What stands behind the name that a node declares, by what is known once it is declared.
fn note_bound(known: &Known, node: &CNode) -> Result<Vec<u8>, OutOfMemory>
    ensures { IfOk result (λ note. note.items ≡ noted true (cnode node.now) (plain known.now)) }
{
    let names = known.names();
    match level_bound(node) {
        None => Ok(Vec::new(known.alloc)),
        Some(level) => {
            if level < names.len() as u64 {
                let note = note_of(known.alloc, &names[level as usize])?;
                Ok(note)
            } else {
                Ok(Vec::new(known.alloc))
            }
        }
    }
}

// One more node is known, if types are shown, and what stands behind the name that it declares.
fn note_next(
    typed: bool,
    known: &mut Known,
    types: u64,
    node: &CNode,
) -> Result<Vec<u8>, OutOfMemory>
    ensures known { OnOk result (typed ≡ true →
        plain known.new ≡ known_step types (cnode node.now) (plain known.old)) }
    ensures note { IfOk result (λ note. note.items ≡
        noted typed (cnode node.now) (known_step types (cnode node.now) (plain known.old))) }
{
    if !typed {
        return Ok(Vec::new(known.alloc));
    }
    known.step(types, node)?;
    let note = note_bound(known, node)?;
    Ok(note)
}

/// The text of a closed program in the notation for readers, with the type of what each `let` binds if `typed`, in
/// UTF-8 bytes, ASCII alone (own choice). Without types it takes time by the length of the text and the number of
/// nodes, however deep the program nests. An error is want of memory; more binders or levels around a place than a word
/// counts are more than memory holds.
pub fn write_closed(alloc: Global, program: &CProgram, typed: bool) -> Result<Vec<u8>, OutOfMemory>
    ensures { IfOk result (λ text. text.items ≡ c_text typed (term_of program.now)) }
{
    let nodes = program.nodes();
    let mut page = blank(alloc)?;
    let mut known = Known::new(alloc);
    for node in nodes {
        let note = note_next(typed, &mut known, page.body.scope.types, node)?;
        page.step(node, &note)?;
    }
    let whole = page.shut()?;
    let text = page.pieces.text(whole)?;
    Ok(text)
}
