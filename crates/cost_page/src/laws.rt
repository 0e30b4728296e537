// Laws of the page, as functions with an empty body that callers cite.
ghost use Rattle.cost_page.specs.Laws.{KindsAddUp, MostIsMost, FirstOfEquals};

/// The steps of all kinds together are as many as how often all places were executed.
pub fn kinds_add_up()
    ensures { KindsAddUp }
{}

/// The places that the page shows are those that were executed most.
pub fn most_is_most()
    ensures { MostIsMost }
{}

/// Of places that were executed equally often, those that come first in the program are shown, in their order.
pub fn first_of_equals()
    ensures { FirstOfEquals }
{}
