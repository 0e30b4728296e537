// The lines of states.
ghost use Rattle.std.specs.Prelude.{◌≡◌, ◌++◌, IfOk, OnOk};
ghost use Rattle.t_types.specs.Read.{file};
ghost use Rattle.t_types.specs.Tree.{BelowFile};
ghost use Rattle.t_trace.specs.Line.{word_text, words_text, line_text, place_line, AreWordsOf};

use crate::types::{write_separator, write_type};
use idx_core::OutOfMemory;
use std::alloc::Global;
use t_terms::Shown;
use t_types::{RegFile, TType};
use t_writer::{write_integer, write_natural};

fn write_word(text: &mut Vec<u8>, word: Shown) -> Result<(), OutOfMemory>
    ensures { OnOk result (text.new.items ≡ text.old.items ++ word_text word) }
{
    match word {
        Shown::Int(i) => write_integer(text, i),
        Shown::Tuple(a) => {
            text.extend_from_slice(b"@")?;
            write_natural(text, a)
        }
        Shown::Label(l) => {
            text.extend_from_slice(b"L")?;
            write_natural(text, l)
        }
    }
}

// Registers with their words and types.
fn write_words(
    text: &mut Vec<u8>,
    vars: u64,
    regs: &[(u64, TType)],
    words: &[(u64, Shown)],
) -> Result<(), OutOfMemory>
    requires { AreWordsOf words.now (file regs.now) }
    ensures { OnOk result (text.new.items ≡ text.old.items ++ words_text vars 0 words.now (file regs.now)) }
{
    for (i, reg) in regs.iter().enumerate() {
        write_separator(text, i)?;
        text.extend_from_slice(b"r")?;
        write_natural(text, reg.0)?;
        text.extend_from_slice(b"=")?;
        write_word(text, words[i].1)?;
        text.extend_from_slice(b":")?;
        write_type(text, &reg.1, vars, 0)?;
    }
    Ok(())
}

/// Where a state stands: its block, its index there, how many type names are in scope, and the types of the registers
/// that are known.
#[derive(Clone, Copy)]
pub struct Place<'a> {
    pub block: u64,
    pub index: u64,
    pub vars: u64,
    pub types: &'a RegFile,
}

/// Puts the line of a state at the end of a text: how many steps led to it, where it stands, and the registers that are
/// known there, each with its word and its type. An error is want of memory.
pub fn write_line(
    text: &mut Vec<u8>,
    m: u64,
    place: Place,
    words: &[(u64, Shown)],
) -> Result<(), OutOfMemory>
    requires scope { BelowFile place.vars (file place.types.now.regs.items) }
    requires words { AreWordsOf words.now (file place.types.now.regs.items) }
    ensures { OnOk result (text.new.items ≡ text.old.items ++ place_line m place.entry words.now) }
{
    write_natural(text, m)?;
    text.extend_from_slice(b" b")?;
    write_natural(text, place.block)?;
    text.extend_from_slice(b".")?;
    write_natural(text, place.index)?;
    text.extend_from_slice(b" {")?;
    write_words(text, place.vars, &place.types.regs, words)?;
    text.extend_from_slice(b"}\n")?;
    Ok(())
}

/// The line of a state (own choice): how many steps led to it, a space, `b`, its block, a dot, its index there, and in
/// braces the registers that are known there, each as `r` and its number, `=`, its word, `:` and its type, where so
/// many type names are in scope. An error is want of memory.
pub fn line(
    alloc: Global,
    m: u64,
    block: u64,
    index: u64,
    vars: u64,
    types: &RegFile,
    words: &Vec<(u64, Shown)>,
) -> Result<Vec<u8>, OutOfMemory>
    requires scope { BelowFile vars (file types.now.regs.items) }
    requires words { AreWordsOf words.now.items (file types.now.regs.items) }
    ensures { IfOk result (λ line. line.items
        ≡ line_text m block index vars words.now.items (file types.now.regs.items)) }
{
    let mut text = Vec::new(alloc);
    let place = Place {
        block,
        index,
        vars,
        types,
    };
    write_line(&mut text, m, place, words)?;
    Ok(text)
}
