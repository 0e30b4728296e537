// The text of what a form binds.
ghost use Rattle.std.specs.Prelude.{◌≡◌, ◌≤◌, ◌++◌, OnOk};
ghost use Rattle.f_terms.specs.Text.{text_at};
ghost use Rattle.f_terms.specs.Read.{tree};
ghost use Rattle.types_page.specs.Page.{kind_text, type_name_text, value_text, word};
ghost use Rattle.types_page.specs.Binders.{Function, Opened};
ghost use Rattle.types_page.specs.Walk.{kind};

use crate::bound::Bound;
use crate::words::write_word;
use f_lexer::Token;
use f_terms::FType;
use f_writer::type_at;
use idx_core::OutOfMemory;
use page_core::write_natural;
use std::alloc::Global;

/// A form in a text: the tokens from its first one on, and how many type names are around it.
#[derive(Clone, Copy)]
pub(crate) struct Form<'a> {
    pub(crate) text: &'a [u8],
    pub(crate) tokens: &'a [Token],
    pub(crate) names: u64,
}

// Token k of a form.
fn write_name(page: &mut Vec<u8>, form: Form, k: usize) -> Result<(), OutOfMemory>
    ensures { OnOk result (page.new.items ≡ page.old.items ++ word form.entry.text.now form.entry.tokens.now k) }
{
    write_word(page, form.text, form.tokens, k)
}

// A type under so many type names.
fn write_type(alloc: Global, page: &mut Vec<u8>, ty: &FType, names: u64) -> Result<(), OutOfMemory>
    ensures { OnOk result (page.new.items ≡ page.old.items ++ text_at names (tree ty.now)) }
{
    let text = type_at(alloc, ty, names)?;
    page.extend_from_slice(&text)?;
    Ok(())
}

// A value name and its type.
fn write_value(
    alloc: Global,
    page: &mut Vec<u8>,
    form: Form,
    k: usize,
    ty: &FType,
) -> Result<(), OutOfMemory>
    ensures { OnOk result (page.new.items ≡ page.old.items
        ++ value_text form.entry.text.now form.entry.tokens.now k form.entry.names (tree ty.now)) }
{
    write_name(page, form, k)?;
    page.extend_from_slice(b" : ")?;
    write_type(alloc, page, ty, form.names)
}

// A type name and its number.
fn write_type_name(page: &mut Vec<u8>, form: Form, k: usize) -> Result<(), OutOfMemory>
    ensures { OnOk result (page.new.items ≡ page.old.items
        ++ type_name_text form.entry.text.now form.entry.tokens.now k form.entry.names) }
{
    write_name(page, form, k)?;
    page.extend_from_slice(b" as t")?;
    write_natural(page, form.names)
}

fn write_function(
    alloc: Global,
    page: &mut Vec<u8>,
    form: Form,
    arg: &FType,
    res: &FType,
) -> Result<(), OutOfMemory>
    ensures { OnOk result (page.new.items ≡ page.old.items ++ kind_text form.entry.text.now form.entry.tokens.now
        form.entry.names (Function (tree arg.now) (tree res.now))) }
{
    page.extend_from_slice(b"fix ")?;
    write_name(page, form, 1)?;
    page.extend_from_slice(b"(")?;
    write_value(alloc, page, form, 3, arg)?;
    page.extend_from_slice(b") : ")?;
    write_type(alloc, page, res, form.names)
}

fn write_opened(
    alloc: Global,
    page: &mut Vec<u8>,
    form: Form,
    ty: &FType,
) -> Result<(), OutOfMemory>
    requires { form.names ≤ 4294967296 }
    ensures { OnOk result (page.new.items ≡ page.old.items ++ kind_text form.entry.text.now form.entry.tokens.now
        form.entry.names (Opened (tree ty.now))) }
{
    let Form {
        text,
        tokens,
        names,
    } = form;
    let inner = Form {
        text,
        tokens,
        names: names + 1,
    };
    page.extend_from_slice(b"open [")?;
    write_type_name(page, form, 2)?;
    page.extend_from_slice(b", ")?;
    write_value(alloc, page, inner, 4, ty)?;
    page.extend_from_slice(b"]")?;
    Ok(())
}

/// What a form binds.
pub(crate) fn write_bound(
    alloc: Global,
    page: &mut Vec<u8>,
    form: Form,
    bound: &Bound,
) -> Result<(), OutOfMemory>
    requires { form.names ≤ 4294967296 }
    ensures { OnOk result (page.new.items ≡ page.old.items
        ++ kind_text form.entry.text.now form.entry.tokens.now form.entry.names (kind bound.now)) }
{
    match bound {
        Bound::Value(ty) => {
            page.extend_from_slice(b"let ")?;
            write_value(alloc, page, form, 1, ty)
        }
        Bound::Function(arg, res) => write_function(alloc, page, form, arg, res),
        Bound::TypeName => {
            page.extend_from_slice(b"gen ")?;
            write_type_name(page, form, 1)
        }
        Bound::Opened(ty) => write_opened(alloc, page, form, ty),
    }
}
