//! What the readers of the source and of assembly share: how a text is cut into tokens, and tables of predictive
//! grammars.
#![tactic(auto)]

mod lexeme;

pub use lexeme::{
    Digits, Found, Lexeme, is_digit, is_letter, is_of_word, is_space, next_lexeme, read_digits,
    word_end,
};
