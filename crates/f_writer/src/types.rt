// Types.
ghost use Rattle.std.specs.Prelude.{◌≡◌, ◌++◌, [], ◌+◌, codes, OnOk, IfOk, if◌then◌else◌};
ghost use Rattle.idx_core.specs.Separator.{separator};
ghost use Rattle.f_terms.specs.Text.{name_text, is_grouped, text_at};
ghost use Rattle.f_terms.specs.Read.{tree};

use crate::names::write_type_name;
use f_terms::FType;
use idx_core::{OutOfMemory, sum};
use std::alloc::Global;

// A binder inside `depth` type names, and how many there are in what follows it.
fn write_binder(text: &mut Vec<u8>, word: &[u8], depth: u64) -> Result<u64, OutOfMemory>
    ensures deeper { IfOk result (λ inner. inner ≡ depth + 1) }
    ensures written { OnOk result (text.new.items ≡
        text.old.items ++ word.now ++ name_text depth ++ codes ". ") }
{
    text.extend_from_slice(word)?;
    write_type_name(text, depth)?;
    text.extend_from_slice(b". ")?;
    let inner = sum(depth, 1)?;
    Ok(inner)
}

fn write_if(text: &mut Vec<u8>, wanted: bool, sign: &[u8]) -> Result<(), OutOfMemory>
    ensures { OnOk result (text.new.items ≡ text.old.items ++ (if wanted then sign.now else [])) }
{
    if wanted {
        text.extend_from_slice(sign)?;
    }
    Ok(())
}

// Whether the type takes parentheses where it is the left side of an arrow, or stands after `ref`.
fn is_grouped(t: &FType) -> bool
    ensures { result ≡ is_grouped (tree t.now) }
{
    match t {
        FType::Arrow(_, _) => true,
        FType::All(_) => true,
        FType::Exists(_) => true,
        FType::Int => false,
        FType::Var(_) => false,
        FType::Tuple(_) => false,
        FType::Ref(_) => false,
    }
}

// A comma before each item of a list but the first.
fn write_separator(text: &mut Vec<u8>, before: usize) -> Result<(), OutOfMemory>
    ensures { OnOk result (text.new.items ≡ text.old.items ++ separator before) }
{
    if before == 0 {
        return Ok(());
    }
    text.extend_from_slice(b", ")?;
    Ok(())
}

/// A type inside `depth` type names, at the end of a text.
pub(crate) fn write_type(text: &mut Vec<u8>, t: &FType, depth: u64) -> Result<(), OutOfMemory>
    ensures { OnOk result (text.new.items ≡ text.old.items ++ text_at depth (tree t.now)) }
{
    match t {
        FType::Int => {
            text.extend_from_slice(b"int")?;
            Ok(())
        }
        FType::Var(i) => write_type_name(text, depth.saturating_sub(1).saturating_sub(*i)),
        FType::Arrow(a, b) => {
            let grouped = is_grouped(a);
            write_if(text, grouped, b"(")?;
            write_type(text, a, depth)?;
            write_if(text, grouped, b")")?;
            text.extend_from_slice(b" -> ")?;
            write_type(text, b, depth)
        }
        FType::All(body) => {
            let inner = write_binder(text, b"all ", depth)?;
            write_type(text, body, inner)
        }
        FType::Tuple(ts) => {
            text.extend_from_slice(b"<")?;
            for (i, part) in ts.iter().enumerate() {
                write_separator(text, i)?;
                write_type(text, part, depth)?;
            }
            text.extend_from_slice(b">")?;
            Ok(())
        }
        FType::Exists(body) => {
            let inner = write_binder(text, b"some ", depth)?;
            write_type(text, body, inner)
        }
        FType::Ref(held) => {
            let grouped = is_grouped(held);
            text.extend_from_slice(b"ref ")?;
            write_if(text, grouped, b"(")?;
            write_type(text, held, depth)?;
            write_if(text, grouped, b")")
        }
    }
}

/// The text of a type inside so many type names (own choice): as in the text of a term, the names are numbered from
/// the outermost. Parentheses stand only round an arrow, an `all` or a `some` on the left of an arrow or after `ref`.
/// Errors: want of memory.
pub fn type_at(alloc: Global, t: &FType, names: u64) -> Result<Vec<u8>, OutOfMemory>
    ensures { IfOk result (λ text. text.items ≡ text_at names (tree t.now)) }
{
    let mut text = Vec::new(alloc);
    write_type(&mut text, t, names)?;
    Ok(text)
}
