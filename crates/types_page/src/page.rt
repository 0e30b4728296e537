// The page.
ghost use Rattle.std.specs.Prelude.{◌≡◌, List, map, IfOk};
ghost use Rattle.f_terms.specs.Read.{tree};
ghost use Rattle.f_terms.specs.ReadTerm.{spanned};
ghost use Rattle.f_lexer.specs.Source.{IsCut};
ghost use Rattle.f_check.specs.Typed.{typed_term, typed_type};
ghost use Rattle.types_page.specs.Page.{IsPage, page};
ghost use Rattle.types_page.specs.Walk.{binder_of};

use crate::bound::Found;
use crate::walk::binders_of;
use crate::writer::Writer;
use f_check::Typed;
use f_lexer::{Token, tokens};
use f_terms::{FFault, FType};
use f_writer::type_at;
use idx_core::OutOfMemory;
use std::alloc::Global;

// The tokens of a text that is cut into tokens.
fn tokens_of(alloc: Global, text: &[u8]) -> Result<Vec<Token>, OutOfMemory>
    requires { (w : List Token) × IsCut text.now w }
    ensures { IfOk result (λ list. IsCut text.now list.items) }
{
    match tokens(alloc, text) {
        Ok(list) => Ok(list),
        Err(FFault::Memory) => Err(OutOfMemory),
        Err(FFault::Refused { .. }) => unreachable!(),
    }
}

// The page of what was found in a text of these tokens, and of the type of the whole.
fn write_page(
    alloc: Global,
    text: &[u8],
    tokens: &[Token],
    list: &[Found],
    ty: &FType,
) -> Result<Vec<u8>, OutOfMemory>
    ensures { IfOk result (λ made. made.items
        ≡ page text.now tokens.now (map binder_of list.now) (tree ty.now)) }
{
    let mut page = Vec::new(alloc);
    let mut writer = Writer::first(alloc, text, tokens);
    writer.write_lines(&mut page, list)?;
    let whole = type_at(alloc, ty, 0)?;
    page.extend_from_slice(&whole)?;
    page.extend_from_slice(b"\n")?;
    Ok(page)
}

/// The page on the types of a source text that stands for a term (own choice): a line for each `let`, `fix`, `gen` and
/// `open`, in the order of the text, with its line and column, from 1 on and in bytes, its names as the text has them,
/// and their types; and behind these the type of the whole. A type name in scope is written as `t` and its number. An
/// error is want of memory.
pub fn page_of(alloc: Global, text: &[u8], typed: &Typed) -> Result<Vec<u8>, OutOfMemory>
    requires { (w : List Token) × IsCut text.now w }
    ensures { IfOk result (λ page.
        IsPage text.now (spanned (typed_term typed.now)) (tree (typed_type typed.now)) page.items) }
{
    let list = binders_of(alloc, typed.term())?;
    let tokens = tokens_of(alloc, text)?;
    let made = write_page(alloc, text, &tokens, &list, typed.ty())?;
    Ok(made)
}
