// Laws of the definition of a listing.
ghost use Rattle.listing.specs.Listing.{OthersStay, SetIsKnown};

/// An instruction changes what is said of one register at most, the one that its row in a listing shows.
pub fn others_stay()
    ensures { OthersStay }
{}

/// The type of a register that an instruction sets is known behind it.
pub fn set_is_known()
    ensures { SetIsKnown }
{}
