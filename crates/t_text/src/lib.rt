//! Texts of assembly: their tokens, their grammar as a table, and which language a text is in.
#![tactic(auto)]

mod cut;
mod digits;
mod kept;
mod laws;
mod nesting_laws;
mod scan;
mod tagged;
mod text_laws;
mod token;
mod wanted;

ghost use Rattle.std.specs.Prelude.{◌≡◌, ◌≤◌, ◌<◌, false, length, drop};
ghost use Rattle.text_core.specs.Lexeme.{at_dashes};
ghost use Rattle.t_text.specs.Kind.{AssemblyBeginsSo, after_gaps, begins_with_tal};

pub use cut::tokens;
pub use kept::Tokens;
pub use laws::{at_most_one_cut, at_most_one_token_fault, no_token_fault_where_cut};
pub use nesting_laws::{counts_open, keeps_by_nesting};
use text_core::{is_space, word_end};
pub use text_laws::{
    at_most_one_fault, at_most_one_program, no_fault_where_read, no_program_where_faulty,
    program_or_fault,
};
pub use token::{Kind, Token};
pub use wanted::Wanted;

// Whether a comment begins at a place.
fn is_dashes(text: &[u8], at: usize) -> bool
    requires { at < length text.now }
    ensures { result ≡ at_dashes (drop at text.now) }
{
    text[at] == b'-' && at + 1 < text.len() && text[at + 1] == b'-'
}

// The place of the first token, or the end of the text.
fn first_place(text: &[u8]) -> usize
    ensures in_range { result ≤ length text.now }
    ensures rest { drop result text.now ≡ after_gaps false text.now }
{
    let mut at = 0;
    let mut comment = false;
    while at < text.len() {
        if comment {
            comment = text[at] != b'\n';
        } else if !is_space(text[at]) {
            if !is_dashes(text, at) {
                return at;
            }
            comment = true;
        }
        at += 1;
    }
    at
}

/// Whether the first token of a text, after blanks and comments, is the word `tal`.
pub fn is_assembly(text: &[u8]) -> bool
    ensures { result ≡ begins_with_tal text.now }
{
    let start = first_place(text);
    let end = word_end(text, start);
    let word = &text[start..end];
    match word {
        b"tal" => true,
        _ => false,
    }
}

/// Each text that stands for an assembly program begins so.
pub fn assembly_begins_so()
    ensures { AssemblyBeginsSo }
{}
