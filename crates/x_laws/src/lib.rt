//! The pass from word code to code of the processor as functions, and what they keep.
#![tactic(auto)]

ghost use Rattle.x_laws.specs.Laws.{CompiledCodeBehaves, CompiledCodeHasPlaces};

/// A process whose code is that of word code does what the word code does, whatever the system answers: it is never
/// stuck, writes what word code writes and ends as it ends, or with the status of a failed write.
pub fn compiled_code_behaves()
    ensures { CompiledCodeBehaves }
{}

/// Where the labels of compiled code stand, each has an address of its own, which is a word.
pub fn compiled_code_has_places()
    ensures { CompiledCodeHasPlaces }
{}
