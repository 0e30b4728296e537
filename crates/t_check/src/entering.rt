// Where a jump leads: code that owes no types, and takes registers that are known by types that fit.
ghost use Rattle.std.specs.Prelude.{◌≡◌, List, OnOk};
ghost use Rattle.t_types.specs.Tree.{Ty};
ghost use Rattle.t_terms.specs.Read.{value};
ghost use Rattle.t_intern.specs.Grown.{Grown};
ghost use Rattle.t_known.specs.Known.{known, IsSound};
ghost use Rattle.t_check.specs.Verdict.{FormedAt, KnowsByNumber, EnteredAt};

use crate::checker::Checker;
use crate::unfit::check_code;
use idx_core::Span;
use t_intern::Types;
use t_known::{Refusal, owes_nothing, refused};
use t_terms::{TCode, Value};

impl Checker<'_> {
    // Whether the value may be entered. What is known of the registers stays.
    pub(crate) fn check_target(
        &mut self,
        types: &mut Types,
        v: &Value,
        span: Span,
    ) -> Result<(), Refusal>
        requires place { KnowsByNumber types.old self.old }
        requires value { FormedAt self.old (value v.now) }
        ensures grown { Grown types.old types.new }
        ensures entered { EnteredAt types.old types.new self.old span (value v.now) result }
        ensures known { (ts : List Ty) → known ts self.new.registers ≡ known ts self.old.registers }
        ensures sound { OnOk result (IsSound types.new self.new.registers) }
        ensures names { self.new.registers.names ≡ self.old.registers.names }
        ensures program { self.new.program ≡ self.old.program }
        ensures labels { self.new.labels ≡ self.old.labels }
    {
        let found = self.type_of_value(types, v, span)?;
        if !owes_nothing(types, found) {
            return refused(TCode::T16, span);
        }
        if self.registers.fit(types, found)? {
            return Ok(());
        }
        check_code(&self.registers, types, found, span)
    }
}
