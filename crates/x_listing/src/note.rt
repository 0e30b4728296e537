// What is said of blocks.
ghost use Rattle.std.specs.Prelude.{◌≡◌};
ghost use Rattle.x_listing.specs.Remarks as spec;
ghost use Rattle.x_listing.specs.Read.{note, notes_of};

/// What a listing says of a block: its name, and a remark in front of each of its instructions, where there is one.
#[derive(Drop)]
pub struct Note {
    pub name: Vec<u8>,
    pub before: Vec<Vec<u8>>,
}

// The name of a block.
pub(crate) fn name_at(notes: &[Note], l: u64) -> &[u8]
    ensures { result.now ≡ spec.name_at (notes_of notes.now) l }
{
    match notes.get(l as usize) {
        Some(one) => one.name.as_slice(),
        None => &[],
    }
}

// The remark in front of instruction k of a block.
pub(crate) fn remark_at(notes: &[Note], l: u64, k: usize) -> &[u8]
    ensures { result.now ≡ spec.text_before (spec.note_at (notes_of notes.now) l).before k }
{
    match notes.get(l as usize) {
        Some(one) => text_before(one, k),
        None => &[],
    }
}

fn text_before(one: &Note, k: usize) -> &[u8]
    ensures { result.now ≡ spec.text_before (note one.now).before k }
{
    match one.before.get(k) {
        Some(text) => text.as_slice(),
        None => &[],
    }
}
