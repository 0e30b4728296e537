// Sums over the places of a program.
ghost use Rattle.std.specs.Prelude.{◌≡◌};
ghost use Rattle.cost_page.specs.Page.{capped, weight, total};

use crate::places::{Kind, Place, number};

/// What is summed.
#[derive(Clone, Copy, Drop)]
pub enum Measure {
    /// How often places of a kind were executed.
    Of(Kind),
    /// How often first places of blocks were executed.
    Entries,
    /// How many fields the tuples have that were made.
    Fields,
}

// What a place counts for, or the greatest number of 64 bits where it is no less.
fn weight(measure: Measure, place: &Place) -> u64
    ensures { capped result ≡ capped (weight measure place.now) }
{
    match measure {
        Measure::Of(kind) => {
            if number(place.kind) == number(kind) {
                place.count
            } else {
                0
            }
        }
        Measure::Entries => { if place.index == 0 { place.count } else { 0 } }
        Measure::Fields => place.count.saturating_mul(place.fields),
    }
}

// The sum over the places, or the greatest number of 64 bits where it is more.
pub(crate) fn total(measure: Measure, places: &[Place]) -> u64
    ensures { result ≡ total measure places.now }
{
    let mut sum: u64 = 0;
    for place in places {
        sum = sum.saturating_add(weight(measure, place));
    }
    sum
}
