// The line that tells what could stand at a place.
ghost use Rattle.std.specs.Prelude.{◌≡◌, ◌++◌, List, [], ◌∷◌, ℕ, IfOk, OnOk};
ghost use Rattle.talc_wanted.specs.Wanted.{heading, found_end, found_token, bytes_at, same_place, end_of};
ghost use Rattle.talc_wanted.specs.Listing.{shown};

use idx_core::{OutOfMemory, Span};
use std::alloc::Global;

// How many bytes the words of a line take at most.
const ROOM: usize = 60;
// How many bytes of a token are shown at most.
const SHOWN: usize = 11;

/// A line in the making: its bytes, for how many more there is room, and whether it is full.
#[derive(Drop)]
pub struct Listing {
    bytes: Vec<u8>,
    room: usize,
    full: bool,
}

/// The bytes of a text from one place to another, as far as they are there.
pub fn token_bytes(text: &[u8], place: Span) -> &[u8]
    ensures { result.now ≡ bytes_at text.now place }
{
    let start = text.len().min(place.start as usize);
    let behind = &text[start..];
    let size = place.end.saturating_sub(place.start);
    &behind[..behind.len().min(size as usize)]
}

/// Whether two places are one.
pub fn same_place(a: Span, b: Span) -> bool
    ensures { result ≡ same_place a b }
{
    a.start == b.start && a.end == b.end
}

/// Whether a place is the end of a text.
pub fn is_end(text: &[u8], at: Span) -> bool
    ensures { result ≡ same_place at (end_of text.now) }
{
    let end = text.len() as u64;
    same_place(at, Span { start: end, end })
}

impl Listing {
    /// A line with its first words.
    pub fn new(alloc: Global) -> Result<Listing, OutOfMemory>
        ensures { IfOk result (λ l. (ws : List (List ℕ)) → shown l ws ≡ heading ws) }
    {
        let bytes = Vec::from_slice(alloc, b"wanted one of:")?;
        Ok(Listing {
            bytes,
            room: ROOM,
            full: false,
        })
    }

    /// The words for one more kind, as far as there is room.
    pub fn put(&mut self, words: &str) -> Result<(), OutOfMemory>
        ensures { OnOk result ((ws : List (List ℕ)) → shown self.new ws ≡ shown self.old (words.now ∷ ws)) }
    {
        if self.full {
            return Ok(());
        }
        let size = 1 + words.len();
        if self.room < size {
            self.bytes.extend_from_slice(b" ..")?;
            self.full = true;
            return Ok(());
        }
        self.bytes.extend_from_slice(b" ")?;
        self.bytes.extend_from_slice(words.as_bytes())?;
        self.room -= size;
        Ok(())
    }

    /// The line of a place where the text ends.
    pub fn before_the_end(self) -> Result<Vec<u8>, OutOfMemory>
        ensures { IfOk result (λ line. line.items ≡ shown self [] ++ found_end) }
    {
        let Listing {
            mut bytes,
            room: _,
            full: _,
        } = self;
        bytes.extend_from_slice(b"; found the end")?;
        Ok(bytes)
    }

    /// The line of a place where these bytes stand.
    pub fn before(self, found: &[u8]) -> Result<Vec<u8>, OutOfMemory>
        ensures { IfOk result (λ line. line.items ≡ shown self [] ++ found_token found.now) }
    {
        let Listing {
            mut bytes,
            room: _,
            full: _,
        } = self;
        bytes.extend_from_slice(b"; found `")?;
        bytes.extend_from_slice(&found[..found.len().min(SHOWN)])?;
        if found.len() > SHOWN {
            bytes.extend_from_slice(b"..")?;
        }
        bytes.extend_from_slice(b"`")?;
        Ok(bytes)
    }
}
