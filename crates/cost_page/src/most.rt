// The places that were executed most.
ghost use Rattle.std.specs.Prelude.{◌≡◌, ◌≤◌, [], length, IfOk, OnOk};
ghost use Rattle.cost_page.specs.Page.{rank, placed, most};

use crate::places::Place;
use idx_core::OutOfMemory;
use std::alloc::Global;

// How many places are shown at most.
const MOST: usize = 10;

// How many of the places stand before another one: those before the first that was executed less often.
fn rank(place: &Place, top: &[Place]) -> usize
    ensures rank { result ≡ rank place.now top.now }
    ensures within { result ≤ length top.now }
{
    for (i, other) in top.iter().enumerate() {
        if other.count < place.count {
            return i;
        }
    }
    top.len()
}

// Puts a place where it belongs, if it was executed, and keeps the first ones.
fn put_place(top: &mut Vec<Place>, place: &Place) -> Result<(), OutOfMemory>
    ensures { OnOk result (top.new.items ≡ placed top.old.items place.now) }
{
    if place.count == 0 {
        return Ok(());
    }
    let at = rank(place, top);
    top.insert(at, *place)?;
    top.truncate(MOST);
    Ok(())
}

// The places that were executed most, the most executed first.
pub(crate) fn most_of(alloc: Global, places: &[Place]) -> Result<Vec<Place>, OutOfMemory>
    ensures { IfOk result (λ top. top.items ≡ most [] places.now) }
{
    let mut top = Vec::new(alloc);
    for place in places {
        put_place(&mut top, place)?;
    }
    Ok(top)
}
