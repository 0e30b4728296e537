// With what instructions are emitted.
use a_scope::Entry;
use std::alloc::Global;

/// With what values are put in place: the variables in scope, and the first of the registers that hold nothing.
#[derive(Clone, Copy, Drop)]
pub struct Emitter<'b, 'a> {
    pub alloc: Global,
    pub vars: &'b [Entry<'a>],
    pub spare: u64,
}

/// The register of a variable that is declared, and with what the code that fills it is emitted.
#[derive(Clone, Copy, Drop)]
pub struct Target<'b, 'a> {
    pub emitter: Emitter<'b, 'a>,
    pub rd: u64,
}
