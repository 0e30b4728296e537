// Types of the assembly language.

/// A type of the assembly language, its variables by number: 0 is the innermost binder.
/// A code type binds the `owes` types that it owes in its registers' types; of these the last is number 0.
/// A field of a tuple has its type and a flag: whether it is initialised.
#[derive(Drop)]
#[cycle(types)]
pub enum TType {
    Int,
    Var(u64),
    Code { owes: u64, regs: RegFile },
    Exists(Box<TType>),
    Tuple(Vec<(TType, bool)>),
}

/// A register file type: registers and their types. Every file of a program has its registers in ascending
/// order, each once; the calls of this crate answer for any other list too, and then read its first entry for
/// a register.
#[derive(Drop)]
#[cycle(types)]
pub struct RegFile {
    pub regs: Vec<(u64, TType)>,
}
