// The lines of a page.
ghost use Rattle.std.specs.Prelude.{◌≡◌, ◌++◌, map, OnOk};
ghost use Rattle.types_page.specs.Page.{line, lines, place_text};
ghost use Rattle.types_page.specs.Walk.{binder_of};
ghost use Rattle.types_page.specs.Writing.{IsWriter, OfTheSame, text_of, tokens_of};

use crate::bound::Found;
use crate::form::{Form, write_bound};
use crate::place::Place;
use crate::words::Cursor;
use f_lexer::Token;
use idx_core::OutOfMemory;
use page_core::write_natural;
use std::alloc::Global;

// Where the writing of a page stands, in the text and in its tokens.
#[derive(Drop)]
pub(crate) struct Writer<'a> {
    pub(crate) alloc: Global,
    pub(crate) place: Place<'a>,
    pub(crate) cursor: Cursor<'a>,
}

fn write_place(page: &mut Vec<u8>, line: u64, column: u64) -> Result<(), OutOfMemory>
    ensures { OnOk result (page.new.items ≡ page.old.items ++ place_text line column) }
{
    write_natural(page, line)?;
    page.extend_from_slice(b":")?;
    write_natural(page, column)?;
    page.extend_from_slice(b": ")?;
    Ok(())
}

impl<'a> Writer<'a> {
    // The start of a text and of its tokens.
    pub(crate) fn first(alloc: Global, text: &'a [u8], tokens: &'a [Token]) -> Writer<'a>
        ensures writer { IsWriter result }
        ensures text { text_of result ≡ text.entry.now }
        ensures tokens { tokens_of result ≡ tokens.entry.now }
    {
        Writer {
            alloc,
            place: Place::first(text),
            cursor: Cursor::first(tokens),
        }
    }

    fn write_line(&mut self, page: &mut Vec<u8>, found: &Found) -> Result<(), OutOfMemory>
        requires { IsWriter self.old }
        ensures writer { IsWriter self.new }
        ensures same { OfTheSame self.old self.new }
        ensures line { OnOk result (page.new.items
            ≡ page.old.items ++ line (text_of self.old) (tokens_of self.old) (binder_of found.now)) }
    {
        let (line, column) = self.place.to(found.at);
        write_place(page, line, column)?;
        let form = Form {
            text: self.place.text,
            tokens: self.cursor.to(found.at),
            names: found.names,
        };
        write_bound(self.alloc, page, form, &found.bound)?;
        page.extend_from_slice(b"\n")?;
        Ok(())
    }

    /// The lines of what was found.
    pub(crate) fn write_lines(
        &mut self,
        page: &mut Vec<u8>,
        list: &[Found],
    ) -> Result<(), OutOfMemory>
        requires { IsWriter self.old }
        ensures writer { IsWriter self.new }
        ensures same { OfTheSame self.old self.new }
        ensures lines { OnOk result (page.new.items
            ≡ page.old.items ++ lines (text_of self.old) (tokens_of self.old) (map binder_of list.now)) }
    {
        for found in list {
            self.write_line(page, found)?;
        }
        Ok(())
    }
}
