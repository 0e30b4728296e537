// Lines and codes.
ghost use Rattle.std.specs.Prelude.{◌≡◌, ◌+◌, [], IfOk, OnOk};
ghost use Rattle.k_terms.specs.Read.{ktree, ktys};
ghost use Rattle.kc_notation.specs.Standing.{IsPage};
ghost use Rattle.kc_notation.specs.ClosedWalk.{Sheet, declare, unpack};
ghost use Rattle.kc_notation.specs.CpsNotation.{note_text};
ghost use Rattle.kc_notation.specs.CpsWalk.{call, enter, noted, packed};

use crate::Page;
use crate::heads::{begin_code, write_arguments};
use idx_core::{OutOfMemory, sum};
use k_terms::KType;
use let_types::{write_any, write_plain_types};
use std::alloc::Global;

// What stands behind a name of this type, inside so many type names.
fn note_of(alloc: Global, typed: bool, ty: &KType, depth: u64) -> Result<Vec<u8>, OutOfMemory>
    ensures { IfOk result (λ note. note.items ≡ note_text typed depth (ktree ty.now)) }
{
    let mut note = Vec::new(alloc);
    if typed {
        note.extend_from_slice(b": ")?;
        write_any(&mut note, ty, depth, false)?;
    }
    Ok(note)
}

// A name of this type is declared as the last value, with a word in front of it.
pub(crate) fn declare(
    page: &mut Page,
    typed: bool,
    level: u64,
    ty: &KType,
    word: &[u8],
) -> Result<(), OutOfMemory>
    ensures { OnOk result ((p : Sheet) → IsPage page.old p →
        IsPage page.new (declare p level (noted typed p (ktree ty.now)) word.now)) }
{
    let note = note_of(page.alloc, typed, ty, page.body.scope.types)?;
    page.declare(level, &note, word)
}

// The last value, as a package of this shape.
fn package(page: &mut Page, hidden: &KType, shape: &KType) -> Result<(), OutOfMemory>
    ensures { OnOk result ((p : Sheet) → IsPage page.old p →
        IsPage page.new (packed p (ktree hidden.now) (ktree shape.now))) }
{
    let depth = page.body.scope.types;
    let mut front = Vec::new(page.alloc);
    front.extend_from_slice(b"pack [")?;
    write_any(&mut front, hidden, depth, false)?;
    front.extend_from_slice(b", ")?;
    let mut behind = Vec::new(page.alloc);
    behind.extend_from_slice(b"] as ")?;
    write_any(&mut behind, shape, depth, false)?;
    page.wrap(front, behind)
}

// A package of the last value is declared, as one of this shape.
pub(crate) fn pack(
    page: &mut Page,
    typed: bool,
    level: u64,
    hidden: &KType,
    shape: &KType,
) -> Result<(), OutOfMemory>
    ensures { OnOk result ((p : Sheet) → IsPage page.old p → IsPage page.new
        (declare (packed p (ktree hidden.now) (ktree shape.now)) level (noted typed p (ktree shape.now)) [])) }
{
    package(page, hidden, shape)?;
    declare(page, typed, level, shape, b"")
}

// A type's name and a value's are declared as what the last value holds, of this type under the new name.
pub(crate) fn unpack(
    page: &mut Page,
    typed: bool,
    level: u64,
    ty: &KType,
) -> Result<(), OutOfMemory>
    ensures { OnOk result ((p : Sheet) → IsPage page.old p → IsPage page.new
        (unpack p level (note_text typed (p.body.scope.types + 1) (ktree ty.now)))) }
{
    let types = sum(page.body.scope.types, 1)?;
    let note = note_of(page.alloc, typed, ty, types)?;
    page.unpack(level, &note)
}

// A call of the last value, whose arguments follow.
pub(crate) fn call(page: &mut Page, types: &[KType]) -> Result<(), OutOfMemory>
    ensures { OnOk result ((p : Sheet) → IsPage page.old p → IsPage page.new (call p (ktys types.now))) }
{
    let mut behind = Vec::new(page.alloc);
    behind.extend_from_slice(b"[")?;
    write_plain_types(&mut behind, types, page.body.scope.types)?;
    behind.extend_from_slice(b"](")?;
    let front = page.begin(b"")?;
    page.line(front, &behind)?;
    page.body.called = true;
    Ok(())
}

// A code begins.
pub(crate) fn enter(
    page: &mut Page,
    level: u64,
    owes: u64,
    args: &[KType],
) -> Result<(), OutOfMemory>
    ensures { OnOk result ((p : Sheet) → IsPage page.old p → IsPage page.new (enter p level owes (ktys args.now))) }
{
    let depth = page.body.scope.types;
    let types = sum(depth, owes)?;
    let first = sum(level, 1)?;
    let mut head = begin_code(page.alloc, depth, level, owes)?;
    write_arguments(&mut head, args, types, first, false)?;
    head.extend_from_slice(b") {\n")?;
    page.open(head, types)
}
