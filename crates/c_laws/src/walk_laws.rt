// What the walks give.
ghost use Rattle.c_laws.specs.Walks.{WalksClose};

/// The walks along the nodes of a closed term give the nodes of the converted term.
pub fn walks_law()
    ensures { WalksClose }
{}
