//! The compiler for programs in C and whatever calls C: a text is compiled, typed, evaluated, shown or explained, and
//! what comes of it is put into memory of the host. `talc.h` declares the exports.
#![tactic(auto)]

mod answer;
mod codes;
mod exports;
mod telling;
