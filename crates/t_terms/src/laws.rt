// Laws of put on values, instructions, sequences and blocks.
ghost use Rattle.t_types.specs.Laws.{PutsExchange};
ghost use Rattle.t_terms.specs.Laws.{PutUnderUnpack, PutUnderBlock, PlacesAside};
ghost use Rattle.t_terms.specs.Tree.{TValue, TInstr, TEnd, TSeq, TBlock, put_value, put_instr, put_end, put_seq};
ghost use Rattle.t_terms.specs.Tree.{put_block};

/// Two puts exchange, the one put into the other, in each kind of tree.
pub fn puts_exchange()
    ensures value { PutsExchange TValue put_value }
    ensures instr { PutsExchange TInstr put_instr }
    ensures end { PutsExchange TEnd put_end }
    ensures seq { PutsExchange TSeq put_seq }
    ensures block { PutsExchange TBlock put_block }
{}

/// A put goes under an unpack and into a block step by step: the index and what is put are shifted by the type
/// variables that are bound there.
pub fn puts_under()
    ensures unpack { PutUnderUnpack }
    ensures block { PutUnderBlock }
{}

/// Shift and put leave places aside.
pub fn places_aside()
    ensures { PlacesAside }
{}
