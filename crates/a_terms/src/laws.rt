// Laws of the allocated calculus.
ghost use Rattle.a_terms.specs.Laws.{NeverWrongLaw, PutsExchange};

/// A typed program never goes wrong, whatever the number of calls.
pub fn typed_programs_are_never_wrong()
    ensures { NeverWrongLaw }
{}

/// Two puts exchange, the one put into the other.
pub fn puts_exchange()
    ensures { PutsExchange }
{}
