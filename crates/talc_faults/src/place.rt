// What stands around the place of a fault.
ghost use Rattle.std.specs.Prelude.{◌≡◌};
ghost use Rattle.talc_faults.specs.Choice.{read};
ghost use Rattle.talc_faults.specs.Hints.{inside_of, place_of};

use crate::around::{bytes_at, bytes_from};
use crate::choice::Facts;
use crate::walk::{token_at, token_behind, walked};
use crate::words::{is, owns};
use idx_core::Span;

// The bracket that is open, or the word that it belongs to: the one before it, or the `fix` before its name.
fn inside_of<'a>(bracket: &'a [u8], by: &'a [u8], behind: &'a [u8]) -> &'a [u8]
    ensures { result.now ≡ inside_of bracket.now by.now behind.now }
{
    if is(behind, b"fix".as_slice()) {
        return behind;
    }
    if owns(by) {
        return by;
    }
    bracket
}

// What stands around a place, with what is told.
pub(crate) fn facts_of<'a>(text: &'a [u8], place: Span, told: &'a [u8], kind: &'a [u8]) -> Facts<'a>
    ensures { read result ≡ place_of text.now place told.now kind.now }
{
    let before = bytes_at(text, 0, place.start);
    let none = b"".as_slice();
    let depth = walked(before, none, 0).depth;
    let w = walked(before, none, depth);
    let bracket = token_at(before, w.bracket);
    Facts {
        told,
        kind,
        inside: inside_of(bracket, token_at(before, w.by), token_at(before, w.behind)),
        earlier: token_at(before, w.before),
        before: token_at(before, w.last),
        found: bytes_at(text, place.start, place.end),
        behind: token_behind(bytes_from(text, place.end)),
    }
}
