//! The checker and the machine of the typed assembly language for programs in C and whatever calls C: calls on a text,
//! and guests, which are loaded once and run a slice at a time. `talc.h` declares the exports.
#![tactic(auto)]

mod about;
mod answer;
mod guest;
mod lent;
mod texts;
