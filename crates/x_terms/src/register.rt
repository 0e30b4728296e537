// Registers.

/// A register of 64 bits. The stack pointer, which has number 4, is left out: no code uses it.
#[derive(Clone, Copy)]
pub enum Register {
    Rax,
    Rcx,
    Rdx,
    Rbx,
    Rbp,
    Rsi,
    Rdi,
    R8,
    R9,
    R10,
    R11,
    R12,
    R13,
    R14,
    R15,
}
