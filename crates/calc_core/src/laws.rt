// Laws of types.

ghost use Rattle.calc_core.specs.Laws.{PutsExchange, LiftIsShift, FirstIsPut, InIsBelow};

/// Two puts exchange.
pub fn puts_exchange()
    ensures { PutsExchange }
{}

/// What typing calls lifting, putting and scope is shift, put and below.
pub fn words_law()
    ensures lifts { LiftIsShift }
    ensures puts { FirstIsPut }
    ensures scopes { InIsBelow }
{}
