// Lines.
ghost use Rattle.std.specs.Prelude.{◌≡◌, ◌++◌, codes, IfOk, OnOk};
ghost use Rattle.page_core.specs.Names.{margin, type_name, value_name};
ghost use Rattle.c_terms.specs.Read.{ctys};
ghost use Rattle.kc_notation.specs.Standing.{IsPage};
ghost use Rattle.kc_notation.specs.ClosedWalk.{Sheet, begun, line, declare, unpack, call, choose};

use crate::joining::wrapped;
use crate::page::{Page, Scope};
use c_terms::CType;
use idx_core::{OutOfMemory, sum};
use let_types::write_types;
use page_core::{write_margin, write_type_name, write_value_name};
use std::alloc::Global;

// A margin and a word.
pub(crate) fn margin_and(alloc: Global, indent: u64, word: &[u8]) -> Result<Vec<u8>, OutOfMemory>
    ensures { IfOk result (λ line. line.items ≡ margin indent ++ word.now) }
{
    let mut line = Vec::new(alloc);
    write_margin(&mut line, indent)?;
    line.extend_from_slice(word)?;
    Ok(line)
}

impl Page {
    /// What a line begins with.
    pub fn begin(&self, word: &[u8]) -> Result<Vec<u8>, OutOfMemory>
        ensures { IfOk result (λ front. front.items ≡ margin self.now.body.scope.indent ++ word.now) }
    {
        let front = margin_and(self.alloc, self.body.scope.indent, word)?;
        Ok(front)
    }

    /// One more line, of the last value and what stands around it.
    pub fn line(&mut self, front: Vec<u8>, behind: &[u8]) -> Result<(), OutOfMemory>
        ensures { OnOk result ((p : Sheet) → IsPage self.old p → IsPage self.new (line p front.items behind.now)) }
    {
        let end = Vec::from_slice(self.alloc, behind)?;
        let value = self.pop();
        let whole = wrapped(&mut self.pieces, front, value, end)?;
        self.body.text = self.pieces.joined(self.body.text, whole)?;
        Ok(())
    }

    /// A line that begins with a word.
    pub fn value_line(&mut self, word: &[u8]) -> Result<(), OutOfMemory>
        ensures { OnOk result ((p : Sheet) → IsPage self.old p →
            IsPage self.new (line p (begun p word.now) (codes "\n"))) }
    {
        let front = self.begin(word)?;
        self.line(front, b"\n")
    }

    // A name is declared as the last value, with a word in front of it and a text behind the name.
    pub(crate) fn declare(
        &mut self,
        level: u64,
        note: &[u8],
        word: &[u8],
    ) -> Result<(), OutOfMemory>
        ensures { OnOk result ((p : Sheet) → IsPage self.old p →
            IsPage self.new (declare p level note.now word.now)) }
    {
        let mut front = self.begin(b"let ")?;
        write_value_name(&mut front, level)?;
        front.extend_from_slice(note)?;
        front.extend_from_slice(b" = ")?;
        front.extend_from_slice(word)?;
        self.line(front, b"\n")
    }

    // What a line begins with that declares a type's name and a value's, with a text behind the latter.
    fn begin_unpack(&self, level: u64, note: &[u8]) -> Result<Vec<u8>, OutOfMemory>
        ensures { IfOk result (λ front. front.items ≡ margin self.now.body.scope.indent ++ (codes "let [" ++
            (type_name self.now.body.scope.types ++ (codes ", " ++ (value_name level ++
            (note.now ++ codes "] = unpack ")))))) }
    {
        let mut front = self.begin(b"let [")?;
        write_type_name(&mut front, self.body.scope.types)?;
        front.extend_from_slice(b", ")?;
        write_value_name(&mut front, level)?;
        front.extend_from_slice(note)?;
        front.extend_from_slice(b"] = unpack ")?;
        Ok(front)
    }

    // A type's name and a value's are declared as what the last value holds, with a text behind the value's name.
    pub(crate) fn unpack(&mut self, level: u64, note: &[u8]) -> Result<(), OutOfMemory>
        ensures { OnOk result ((p : Sheet) → IsPage self.old p → IsPage self.new (unpack p level note.now)) }
    {
        let scope = self.body.scope;
        let types = sum(scope.types, 1)?;
        let front = self.begin_unpack(level, note)?;
        self.line(front, b"\n")?;
        self.body.scope = Scope {
            types,
            indent: scope.indent,
        };
        Ok(())
    }

    // A call of the last value, whose arguments follow.
    pub(crate) fn call(&mut self, types: &[CType]) -> Result<(), OutOfMemory>
        ensures { OnOk result ((p : Sheet) → IsPage self.old p → IsPage self.new (call p (ctys types.now))) }
    {
        let mut behind = Vec::new(self.alloc);
        behind.extend_from_slice(b"[")?;
        write_types(&mut behind, types, self.body.scope.types)?;
        behind.extend_from_slice(b"](")?;
        let front = self.begin(b"")?;
        self.line(front, &behind)?;
        self.body.called = true;
        Ok(())
    }

    /// A test of the last value: its first branch begins.
    pub fn choose(&mut self) -> Result<(), OutOfMemory>
        ensures { OnOk result ((p : Sheet) → IsPage self.old p → IsPage self.new (choose p)) }
    {
        let scope = self.body.scope;
        let indent = sum(scope.indent, 1)?;
        let front = self.begin(b"if0 ")?;
        self.line(front, b" then\n")?;
        self.body.branches.push_front(scope)?;
        self.body.scope = Scope {
            types: scope.types,
            indent,
        };
        Ok(())
    }
}
