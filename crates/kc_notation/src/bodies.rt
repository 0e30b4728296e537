// Codes and branches.
ghost use Rattle.std.specs.Prelude.{◌≡◌, ◌++◌, ℕ, IfOk, OnOk};
ghost use Rattle.page_core.specs.Pieces.{Keeps, HasText};
ghost use Rattle.c_terms.specs.Read.{ctys};
ghost use Rattle.kc_notation.specs.Standing.{IsPage, IsShut};
ghost use Rattle.kc_notation.specs.ClosedWalk.{Sheet, enter, leave, opened, shut, turn};

use crate::heads::{begin_code, write_arguments};
use crate::joining::piece_of;
use crate::lines::margin_and;
use crate::page::{Body, Page, Scope};
use c_terms::CType;
use idx_core::{OutOfMemory, sum};
use std::collections::VecDeque;
use std::mem;

impl Page {
    /// A code begins with this line, inside so many type names.
    pub fn open(&mut self, head: Vec<u8>, types: u64) -> Result<(), OutOfMemory>
        ensures { OnOk result ((p : Sheet) → IsPage self.old p → IsPage self.new (opened p head.items types)) }
    {
        let indent = sum(self.body.scope.indent, 1)?;
        let text = self.pieces.bytes(head)?;
        let inner = Body {
            text,
            values: VecDeque::new(self.alloc),
            called: false,
            scope: Scope { types, indent },
            branches: VecDeque::new(self.alloc),
        };
        let outer = mem::replace(&mut self.body, inner);
        self.around.push_front(outer)?;
        Ok(())
    }

    // A code begins.
    pub(crate) fn enter(&mut self, owes: u64, args: &[CType]) -> Result<(), OutOfMemory>
        ensures { OnOk result ((p : Sheet) → IsPage self.old p → IsPage self.new (enter p owes (ctys args.now))) }
    {
        let mut head = begin_code(self.alloc, 0, 0, owes)?;
        write_arguments(&mut head, args, owes, 1, true)?;
        head.extend_from_slice(b") {\n")?;
        self.open(head, owes)
    }

    /// The text of the body where it ends here: the call that waits has its arguments.
    pub fn shut(&mut self) -> Result<u64, OutOfMemory>
        ensures keeps { OnOk result (Keeps self.old.pieces self.new.pieces) }
        ensures shut { IfOk result (λ text. (p : Sheet) → IsPage self.old p → IsShut self.new p text) }
    {
        if !self.body.called {
            return Ok(self.body.text);
        }
        let count = self.body.values.len() as u64;
        let end = piece_of(self.alloc, &mut self.pieces, b")\n")?;
        let arguments = self.gather(count, end)?;
        let text = self.pieces.joined(self.body.text, arguments)?;
        Ok(text)
    }

    /// The code ends, and is a value of the body around it.
    pub fn leave(&mut self) -> Result<(), OutOfMemory>
        ensures { OnOk result ((p : Sheet) → IsPage self.old p → IsPage self.new (leave p p.around)) }
    {
        let Some(outer) = self.around.pop_front() else {
            return Ok(());
        };
        let text = self.shut()?;
        let line = margin_and(self.alloc, outer.scope.indent, b"}")?;
        let end = self.pieces.bytes(line)?;
        let code = self.pieces.joined(text, end)?;
        let _ = mem::replace(&mut self.body, outer);
        self.push(code)
    }

    /// The second branch of a test begins.
    pub fn turn(&mut self) -> Result<(), OutOfMemory>
        ensures { OnOk result ((p : Sheet) → IsPage self.old p → IsPage self.new (turn p p.body.branches)) }
    {
        let Some(scope) = self.body.branches.pop_front() else {
            return Ok(());
        };
        let text = self.shut()?;
        let line = margin_and(self.alloc, scope.indent, b"else\n")?;
        let indent = sum(scope.indent, 1)?;
        let end = self.pieces.bytes(line)?;
        self.body.text = self.pieces.joined(text, end)?;
        self.body.values = VecDeque::new(self.alloc);
        self.body.called = false;
        self.body.scope = Scope {
            types: scope.types,
            indent,
        };
        Ok(())
    }
}
