// Laws of shift and put on types and register files.
ghost use Rattle.t_types.specs.Laws.{PutsExchange, PutUnderExists, PutUnderCode};
ghost use Rattle.t_types.specs.Tree.{Ty, TFile, put, put_file};

/// Two puts exchange, the one put into the other, in types and in register files.
pub fn puts_exchange()
    ensures ty { PutsExchange Ty put }
    ensures file { PutsExchange TFile put_file }
{}

/// A put goes under a binder step by step: the index and what is put are shifted by the binders that are passed.
pub fn puts_under()
    ensures exists { PutUnderExists }
    ensures code { PutUnderCode }
{}
