// What is known of a program that is cut.
ghost use Rattle.listing.specs.CutLaws.{CutIsAccepted, KnownBefore};

/// A program that is cut at the place of its first fault is accepted, where the fault is one of the blocks.
pub fn cut_is_accepted()
    ensures { CutIsAccepted }
{}

/// What is known before the place in the program that is cut is known in the whole program.
pub fn known_before()
    ensures { KnownBefore }
{}
