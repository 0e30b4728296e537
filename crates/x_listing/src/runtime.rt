// The names of the runtime's blocks.
ghost use Rattle.std.specs.Prelude.{◌≡◌, ◌++◌, ◌∷◌, [], OnOk, IfOk};
ghost use Rattle.x_listing.specs.Notes as spec;
ghost use Rattle.x_listing.specs.Read.{notes_of as notes_tree};

use crate::note::Note;
use idx_core::OutOfMemory;
use std::alloc::Global;

// Puts a name with no remarks.
#[tactic(auto, using(crate::proofs::Sayings::notes_push))]
fn put(notes: &mut Vec<Note>, text: &[u8]) -> Result<(), OutOfMemory>
    ensures { OnOk result
        (notes_tree notes.new.items ≡ notes_tree notes.old.items ++ spec.named text.now ∷ []) }
{
    let alloc = *notes.allocator();
    let mut name = Vec::new(alloc);
    name.extend_from_slice(text)?;
    notes.push(Note {
        name,
        before: Vec::new(alloc),
    })?;
    Ok(())
}

// The first blocks, and those that write an integer.
fn put_printing(notes: &mut Vec<Note>) -> Result<(), OutOfMemory>
    ensures { OnOk result (notes_tree notes.new.items ≡ notes_tree notes.old.items ++ spec.printing_notes) }
{
    put(notes, b"print.lead")?;
    put(notes, b"print.digit")?;
    put(notes, b"print.put")?;
    put(notes, b"print.next")?;
    put(notes, b"print.last")?;
    Ok(())
}

fn put_growing(notes: &mut Vec<Note>) -> Result<(), OutOfMemory>
    ensures { OnOk result (notes_tree notes.new.items ≡ notes_tree notes.old.items ++ spec.growing_notes) }
{
    put(notes, b"collect.grow")?;
    put(notes, b"collect.claim")?;
    Ok(())
}

fn put_sweeping(notes: &mut Vec<Note>) -> Result<(), OutOfMemory>
    ensures { OnOk result (notes_tree notes.new.items ≡ notes_tree notes.old.items ++ spec.sweeping_notes) }
{
    put(notes, b"collect")?;
    put(notes, b"collect.sweep")?;
    put(notes, b"collect.hit")?;
    put(notes, b"collect.tail")?;
    put_growing(notes)?;
    Ok(())
}

fn put_marking(notes: &mut Vec<Note>) -> Result<(), OutOfMemory>
    ensures { OnOk result (notes_tree notes.new.items ≡ notes_tree notes.old.items ++ spec.marking_notes) }
{
    put(notes, b"collect.begin")?;
    put(notes, b"collect.scan")?;
    put(notes, b"collect.take")?;
    put(notes, b"collect.marked")?;
    put(notes, b"full")?;
    Ok(())
}

// The blocks of the collector.
fn put_collecting(notes: &mut Vec<Note>) -> Result<(), OutOfMemory>
    ensures { OnOk result (notes_tree notes.new.items ≡ notes_tree notes.old.items ++ spec.collecting_notes) }
{
    put_sweeping(notes)?;
    put_marking(notes)
}

// The names of all blocks of the runtime.
pub(crate) fn runtime_notes(alloc: Global) -> Result<Vec<Note>, OutOfMemory>
    ensures { IfOk result (λ notes. notes_tree notes.items ≡ spec.runtime_notes) }
{
    let mut notes = Vec::new(alloc);
    put(&mut notes, b"start")?;
    put(&mut notes, b"halt")?;
    put(&mut notes, b"room")?;
    put_printing(&mut notes)?;
    put_collecting(&mut notes)?;
    Ok(notes)
}
