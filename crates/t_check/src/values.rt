// The types of small values, by number.
ghost use Rattle.std.specs.Prelude.{◌≡◌, ℕ, ◌<◌, ◌≤◌, IfOk, length};
ghost use Rattle.t_types.specs.WellFormed.{max_names, WellFormed, WellFormedTypes};
ghost use Rattle.t_types.specs.Read.{tree, types as type_trees};
ghost use Rattle.t_types.specs.Tree.{CodeTy, TFile};
ghost use Rattle.t_terms.specs.Tree.{Plain};
ghost use Rattle.t_terms.specs.Read.{base as base_tree, value};
ghost use Rattle.t_intern.specs.Applied.{with_types};
ghost use Rattle.t_intern.specs.Grown.{Grown, IsNumber};
ghost use Rattle.t_intern.specs.Nodes.{at, regs_at, RegsBelow};
ghost use Rattle.t_types.specs.Bounds.{Bounded, OwedFile};
ghost use Rattle.t_check.specs.Verdict.{FormedAt, FormedBase, KnowsByNumber, BaseTypedAt, TypedAt, AppliedAt};
ghost use Rattle.t_check.specs.Verdict.{IsInstantiated};
ghost use Rattle.t_check.specs.Verdict.{IsPacked};

use crate::checker::Checker;
use idx_core::{OutOfMemory, Span};
use t_intern::{Shape, Types};
use t_known::{Odds, Refusal, at_odds, code_parts, exists_body, intern, owed, refused};
use t_terms::{Base, TCode, Value};
use t_types::TType;

// The type that a package hides, and the type that it is given.
#[derive(Clone, Copy)]
struct Package<'a> {
    hidden: &'a TType,
    shape: &'a TType,
}

impl Checker<'_> {
    // The type of a value.
    pub(crate) fn type_of_value(
        &self,
        types: &mut Types,
        v: &Value,
        span: Span,
    ) -> Result<u64, Refusal>
        requires place { KnowsByNumber types.old self.now }
        requires value { FormedAt self.now (value v.now) }
        ensures grown { Grown types.old types.new }
        ensures typed { TypedAt types.old types.new self.now span (value v.now) result }
    {
        match v {
            Value::Plain { base, types: args } => self.type_of_plain(types, *base, args, span),
            Value::Pack {
                hidden,
                inner,
                shape,
            } => {
                let found = self.type_of_value(types, inner, span)?;
                self.type_of_package(types, &Package { hidden, shape }, found, span)
            }
        }
    }

    // The type of a base that is applied to types.
    fn type_of_plain(
        &self,
        types: &mut Types,
        base: Base,
        args: &[TType],
        span: Span,
    ) -> Result<u64, Refusal>
        requires place { KnowsByNumber types.old self.now }
        requires base { FormedBase self.now.program.now (base_tree base) }
        requires args { WellFormedTypes self.now.registers.names (type_trees args.now) }
        ensures grown { Grown types.old types.new }
        ensures typed { TypedAt types.old types.new self.now span (Plain (base_tree base) (type_trees args.now))
            result }
    {
        let found = self.type_of_base(types, base, span)?;
        if args.is_empty() {
            return Ok(found);
        }
        self.apply(types, found, args, span)
    }

    fn type_of_base(&self, types: &mut Types, base: Base, span: Span) -> Result<u64, Refusal>
        requires place { KnowsByNumber types.old self.now }
        requires base { FormedBase self.now.program.now (base_tree base) }
        ensures grown { Grown types.old types.new }
        ensures typed { BaseTypedAt types.old types.new self.now span (base_tree base) result }
    {
        match base {
            Base::Reg(r) => match self.registers.find(r) {
                Some(entry) => {
                    let n = self.registers.shown(types, entry)?;
                    Ok(n)
                }
                None => refused(TCode::T08, span),
            },
            Base::Int(_) => Ok(self.labels.int),
            Base::Label(l) => Ok(self.labels.blocks[l as usize]),
            Base::Data(d) => Ok(self.labels.tuples[d as usize]),
        }
    }

    // The type of the number `found`, applied to types: it has to be code that owes as many.
    fn apply(
        &self,
        types: &mut Types,
        found: u64,
        args: &[TType],
        span: Span,
    ) -> Result<u64, Refusal>
        requires place { KnowsByNumber types.old self.now }
        requires found { found < length types.old }
        requires bounded { Bounded self.now.registers.names (at types.old found) }
        requires some { 0 < length args.now }
        requires args { WellFormedTypes self.now.registers.names (type_trees args.now) }
        ensures grown { Grown types.old types.new }
        ensures applied { AppliedAt types.old types.new self.now span found (type_trees args.now) result }
    {
        let owes = match owed(types, found) {
            Some(owes) => owes,
            None => return refused(TCode::T17, span),
        };
        let count = args.len() as u64;
        if count > owes {
            return refused(TCode::T17, span);
        }
        let n = self.applied(types, found, args)?;
        Ok(n)
    }

    // The number of code that is applied to types. It is remembered, so that its file is made once.
    fn applied(&self, types: &mut Types, found: u64, args: &[TType]) -> Result<u64, OutOfMemory>
        requires few { self.now.registers.names ≤ max_names }
        requires found { found < length types.old }
        requires bounded { Bounded self.now.registers.names (at types.old found) }
        requires enough { (owes : ℕ) (f : TFile) → at types.old found ≡ CodeTy owes f → length args.now ≤ owes }
        requires args { WellFormedTypes self.now.registers.names (type_trees args.now) }
        ensures grown { Grown types.old types.new }
        ensures number { IfOk result (IsNumber types.new (with_types (type_trees args.now) (at types.old found))) }
    {
        let row = types.number_row(args)?;
        if let Some(made) = types.recalls_applied(found, row) {
            return Ok(made);
        }
        let made = self.apply_anew(types, found, args)?;
        types.note_applied(found, row, made);
        Ok(made)
    }

    // The same by its file.
    fn apply_anew(&self, types: &mut Types, found: u64, args: &[TType]) -> Result<u64, OutOfMemory>
        requires few { self.now.registers.names ≤ max_names }
        requires found { found < length types.old }
        requires bounded { Bounded self.now.registers.names (at types.old found) }
        requires enough { (owes : ℕ) (f : TFile) → at types.old found ≡ CodeTy owes f → length args.now ≤ owes }
        requires args { WellFormedTypes self.now.registers.names (type_trees args.now) }
        ensures grown { Grown types.old types.new }
        ensures number { IfOk result (IsNumber types.new (with_types (type_trees args.now) (at types.old found))) }
    {
        let parts = match code_parts(types, found)? {
            Some(parts) => parts,
            None => return Ok(found),
        };
        let regs = self.instantiate(types, parts.owes, &parts.regs, args)?;
        let owes = parts.owes - args.len() as u64;
        intern(types, Shape::Code { owes, regs })
    }

    // The registers' types of code that owes `owes` types, where the types in order are put for the first ones.
    fn instantiate(
        &self,
        types: &mut Types,
        owes: u64,
        regs: &[(u64, u64)],
        args: &[TType],
    ) -> Result<Vec<(u64, u64)>, OutOfMemory>
        requires few { self.now.registers.names ≤ max_names }
        requires owes { owes ≤ max_names }
        requires enough { length args.now ≤ owes }
        requires args { WellFormedTypes self.now.registers.names (type_trees args.now) }
        requires regs { RegsBelow (length types.old) regs.now }
        requires file { OwedFile self.now.registers.names owes (regs_at types.old regs.now) }
        ensures grown { Grown types.old types.new }
        ensures made { IfOk result (λ made. IsInstantiated types.new self.now.registers.names (type_trees args.now) owes
            (regs_at types.old regs.now) made.items) }
    {
        let left = owes - args.len() as u64;
        let args = types.number_all(args)?;
        types.put_file(regs, 0, &args, left)
    }

    // The type of a package: its shape, where the type that was found fits it with the hidden
    // type put for what it hides.
    fn type_of_package(
        &self,
        types: &mut Types,
        given: &Package,
        found: u64,
        span: Span,
    ) -> Result<u64, Refusal>
        requires few { self.now.registers.names ≤ max_names }
        requires found { found < length types.old }
        requires hidden { WellFormed self.now.registers.names (tree given.now.hidden.now) }
        requires shape { WellFormed self.now.registers.names (tree given.now.shape.now) }
        ensures grown { Grown types.old types.new }
        ensures packed { IsPacked types.new self.now.registers.names (tree given.now.hidden.now) (at types.old found)
            (tree given.now.shape.now) span result }
    {
        let names = self.registers.names;
        let shape = types.number(given.shape)?;
        let body = match exists_body(types, shape) {
            Some(body) => body,
            None => {
                let found = shape;
                return at_odds(TCode::T15, span, Odds::NoPackage { found, names });
            }
        };
        let hidden = types.number(given.hidden)?;
        let wanted = types.put(body, 0, hidden)?;
        if !types.fits_once(found, wanted) {
            let odds = Odds::Types {
                wanted,
                found,
                names,
            };
            return at_odds(TCode::T15, span, odds);
        }
        Ok(shape)
    }
}
