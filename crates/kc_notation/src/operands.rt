// Variables and integers, and what values are wrapped in.
ghost use Rattle.std.specs.Prelude.{[], OnOk};
ghost use Rattle.page_core.specs.Names.{number, value_name};
ghost use Rattle.c_terms.specs.Read.{ctree, ctys};
ghost use Rattle.let_types.specs.TypeTexts.{applied_text, pack_behind, pack_front};
ghost use Rattle.kc_notation.specs.Standing.{IsPage};
ghost use Rattle.kc_notation.specs.ClosedWalk.{Sheet, push, wrap};

use crate::page::Page;
use c_terms::CType;
use idx_core::OutOfMemory;
use let_types::{before_packed, behind_packed, types_applied};
use page_core::{write_integer, write_value_name};

impl Page {
    /// A variable, by its level.
    pub fn variable(&mut self, level: u64) -> Result<(), OutOfMemory>
        ensures { OnOk result ((p : Sheet) → IsPage self.old p → IsPage self.new (push p (value_name level))) }
    {
        let mut text = Vec::new(self.alloc);
        write_value_name(&mut text, level)?;
        let piece = self.pieces.bytes(text)?;
        self.push(piece)
    }

    /// An integer.
    pub fn integer(&mut self, n: i64) -> Result<(), OutOfMemory>
        ensures { OnOk result ((p : Sheet) → IsPage self.old p → IsPage self.new (push p (number n))) }
    {
        let mut text = Vec::new(self.alloc);
        write_integer(&mut text, n)?;
        let piece = self.pieces.bytes(text)?;
        self.push(piece)
    }

    // The last value, applied to types.
    pub(crate) fn apply(&mut self, types: &[CType]) -> Result<(), OutOfMemory>
        ensures { OnOk result ((p : Sheet) → IsPage self.old p →
            IsPage self.new (wrap p [] (applied_text p.body.scope.types (ctys types.now)))) }
    {
        let behind = types_applied(self.alloc, types, self.body.scope.types)?;
        self.wrap(Vec::new(self.alloc), behind)
    }

    // The last value, as a package.
    pub(crate) fn pack(&mut self, hidden: &CType, shape: &CType) -> Result<(), OutOfMemory>
        ensures { OnOk result ((p : Sheet) → IsPage self.old p →
            IsPage self.new (wrap p (pack_front p.body.scope.types (ctree hidden.now))
            (pack_behind p.body.scope.types (ctree shape.now)))) }
    {
        let depth = self.body.scope.types;
        let front = before_packed(self.alloc, hidden, depth)?;
        let behind = behind_packed(self.alloc, shape, depth)?;
        self.wrap(front, behind)
    }
}
