// What typing knows at the places of an accepted program: how many type names are in scope, and the types of the
// registers.
ghost use Rattle.std.specs.Prelude.{◌≡◌, ◌↔◌, ◌≤◌, IsTrue, IfOk, OnOk, Some, None, option_map};
ghost use Rattle.t_types.specs.Read.{file, tree};
ghost use Rattle.t_types.specs.WellFormed.{max_names};
ghost use Rattle.t_terms.specs.Tree.{TSeq, names_after};
ghost use Rattle.t_terms.specs.Read.{instr};
ghost use Rattle.t_terms.specs.ReadProgram.{program as program_of};
ghost use Rattle.t_rules.specs.Known.{code_at};
ghost use Rattle.t_rules.specs.Rules.{Accepted};
ghost use Rattle.t_intern.specs.Grown.{Grown};
ghost use Rattle.t_check.specs.Checked.{checked_program};
ghost use Rattle.t_known.specs.Known.{known, IsSound};
ghost use Rattle.t_check.specs.Verdict.{FormedInstr, IsLabelled, KnowsByNumber, program_in};
ghost use Rattle.t_check.specs.Walks.{IsFileOf, IsKnownFile, IsKnownRegister, IsTyped, IsPassed, IsStand};
ghost use Rattle.t_check.specs.Walks.{IsStandAt, IsWalk, walked};

use crate::checked::Checked;
use crate::checker::{Checker, Labelled};
use crate::program::header;
use crate::salt_of;
use idx_core::{OutOfMemory, Span};
use std::alloc::Global;
use t_intern::Types;
use t_known::{Labels, Refusal, Registers};
use t_rules::{no_fault_where_typed, places_go_on};
use t_terms::{Instr, TProgram};
use t_types::{RegFile, TType};

/// A place of a program, with what is known of the registers there.
#[derive(Drop)]
pub(crate) struct Stand {
    pub(crate) block: u64,
    pub(crate) index: u64,
    pub(crate) registers: Registers,
}

/// Goes over the places of an accepted program. It remembers where it stands, so that a place further on in the same
/// block costs a step for each instruction between, and any other place a step for each instruction before it in its
/// block. Types are numbered once for the whole program.
#[derive(Drop)]
pub struct Walk<'a> {
    pub(crate) alloc: Global,
    pub(crate) program: &'a TProgram,
    pub(crate) types: Types,
    pub(crate) labels: Labels,
    pub(crate) stand: Option<Stand>,
}

impl Checker<'_> {
    // Passes an instruction that is typed.
    fn pass_instr(&mut self, types: &mut Types, i: &Instr, span: Span) -> Result<(), OutOfMemory>
        requires place { KnowsByNumber types.old self.old }
        requires instr { FormedInstr self.old.program.now self.old.registers.names (instr i.now) }
        requires few { names_after (instr i.now) self.old.registers.names ≤ max_names }
        requires typed { IsTyped types.old self.old (instr i.now) }
        ensures grown { Grown types.old types.new }
        ensures step { OnOk result (IsPassed types.old types.new self.old self.new (instr i.now)) }
        ensures program { self.new.program ≡ self.old.program }
        ensures labels { self.new.labels ≡ self.old.labels }
    {
        no_fault_where_typed();
        match self.check_instr(types, i, span) {
            Ok(()) => Ok(()),
            Err(Refusal::Memory) => Err(OutOfMemory),
            Err(Refusal::Refused { .. }) => unreachable!(),
            Err(Refusal::AtOdds { .. }) => unreachable!(),
        }
    }
}

// From a place of an accepted program to one further on in its block.
fn pass(of: &Labelled, types: &mut Types, stand: Stand, index: u64) -> Result<Stand, OutOfMemory>
    requires accepted { ∥ Accepted (program_of of.now.program.now) ∥₁ }
    requires labels { IsLabelled types.old of.now }
    requires stands { IsStand types.old of.now.program.now stand }
    requires order { stand.index ≤ index }
    requires there { (c : TSeq) × (code_at (program_of of.now.program.now) stand.block index ≡ Some c) }
    ensures grown { Grown types.old types.new }
    ensures stands { IfOk result (IsStandAt types.new of.now.program.now stand.block index) }
{
    places_go_on();
    let Stand {
        block,
        index: from,
        registers,
    } = stand;
    let body = &of.program.blocks[block as usize].body;
    let mut checker = Checker {
        alloc: of.alloc,
        program: of.program,
        labels: of.labels,
        registers,
    };
    for i in from..index {
        let step = &body[i as usize];
        checker.pass_instr(types, &step.0, step.1)?;
    }
    let Checker { registers, .. } = checker;
    Ok(Stand {
        block,
        index,
        registers,
    })
}

// What is known of the registers, as a file.
fn file_of(alloc: Global, types: &mut Types, registers: &Registers) -> Result<RegFile, OutOfMemory>
    requires { IsSound types.old registers.now }
    ensures grown { Grown types.old types.new }
    ensures file { IfOk result (λ f. IsFileOf (known types.old registers.now) registers.now.names (file f.regs.items)) }
{
    let mut regs = Vec::new(alloc);
    for pair in &registers.entries {
        let (r, entry) = pair;
        let n = registers.shown(types, *entry)?;
        let t = types.tree(n)?;
        regs.push((*r, t))?;
    }
    Ok(RegFile { regs })
}

// What is known of a register.
fn type_of(types: &mut Types, registers: &Registers, r: u64) -> Result<Option<TType>, OutOfMemory>
    requires { IsSound types.old registers.now }
    ensures grown { Grown types.old types.new }
    ensures found { IfOk result (λ found. option_map tree found ≡ known types.old registers.now r) }
{
    let Some(entry) = registers.find(r) else {
        return Ok(None);
    };
    let n = registers.shown(types, entry)?;
    let found = types.tree(n)?;
    Ok(Some(found))
}

impl<'a> Walk<'a> {
    /// A walk that stands nowhere yet. An error of a walk is want of memory.
    pub fn new(alloc: Global, program: &'a Checked) -> Result<Walk<'a>, OutOfMemory>
        ensures walk { IfOk result IsWalk }
        ensures program { IfOk result (λ w. walked w ≡ program_of (checked_program program.entry.now)) }
    {
        let program = program.program();
        let mut types = Types::salted(alloc, salt_of(program));
        let labels = Labels::of_program(alloc, &mut types, program)?;
        Ok(Walk {
            alloc,
            program,
            types,
            labels,
            stand: None,
        })
    }

    // Where to go on from to a place: from where the walk stands, or from the start of the block.
    fn start(&mut self, block: u64, index: u64) -> Result<Stand, OutOfMemory>
        requires walk { IsWalk self.old }
        requires there { (c : TSeq) × (code_at (walked self.old) block index ≡ Some c) }
        ensures program { self.new.program ≡ self.old.program }
        ensures types { self.new.types ≡ self.old.types }
        ensures labels { self.new.labels ≡ self.old.labels }
        ensures stand { self.new.stand ≡ None }
        ensures stands { IfOk result (λ s. IsStand self.old.types self.old.program.now s
            × (s.block ≡ block) × (s.index ≤ index)) }
    {
        if let Some(stand) = self.stand.take() {
            if is_before(&stand, block, index) {
                return Ok(stand);
            }
        }
        let registers = header(
            self.alloc,
            &self.types,
            &self.program.blocks[block as usize],
            self.labels.blocks[block as usize],
        )?;
        Ok(Stand {
            block,
            index: 0,
            registers,
        })
    }

    // Goes to a place, and stands nowhere: what stands there is handed out.
    fn go(&mut self, block: u64, index: u64) -> Result<Stand, OutOfMemory>
        requires walk { IsWalk self.old }
        requires there { (c : TSeq) × (code_at (walked self.old) block index ≡ Some c) }
        ensures walk { IsWalk self.new }
        ensures program { self.new.program ≡ self.old.program }
        ensures stand { self.new.stand ≡ None }
        ensures stands { IfOk result (IsStandAt self.new.types self.new.program.now block index) }
    {
        let stand = self.start(block, index)?;
        let of = Labelled {
            alloc: self.alloc,
            program: self.program,
            labels: &self.labels,
        };
        let stand = pass(&of, &mut self.types, stand, index)?;
        Ok(stand)
    }

    /// What is known before an instruction or the end of a block: how many type names are in scope, and the types of
    /// the registers, as a file whose registers rise.
    pub fn to(&mut self, block: u64, index: u64) -> Result<(u64, RegFile), OutOfMemory>
        requires walk { IsWalk self.old }
        requires there { (c : TSeq) × (code_at (walked self.old) block index ≡ Some c) }
        ensures walk { IsWalk self.new }
        ensures program { self.new.program ≡ self.old.program }
        ensures known { IfOk result (λ r. IsKnownFile (walked self.old) block index r.0 (file r.1.regs.items)) }
    {
        let stand = self.go(block, index)?;
        let regs = file_of(self.alloc, &mut self.types, &stand.registers)?;
        let vars = stand.registers.names;
        self.stand = Some(stand);
        Ok((vars, regs))
    }

    /// What is known of one register before an instruction or the end of a block: how many type names are in scope, and
    /// the register's type, where it is known.
    pub fn register(
        &mut self,
        block: u64,
        index: u64,
        r: u64,
    ) -> Result<(u64, Option<TType>), OutOfMemory>
        requires walk { IsWalk self.old }
        requires there { (c : TSeq) × (code_at (walked self.old) block index ≡ Some c) }
        ensures walk { IsWalk self.new }
        ensures program { self.new.program ≡ self.old.program }
        ensures known { IfOk result (λ x.
            IsKnownRegister (walked self.old) block index r x.0 (option_map tree x.1)) }
    {
        let stand = self.go(block, index)?;
        let found = type_of(&mut self.types, &stand.registers, r)?;
        let vars = stand.registers.names;
        self.stand = Some(stand);
        Ok((vars, found))
    }
}

// Whether it stands in the block, at the place or before it.
fn is_before(stand: &Stand, block: u64, index: u64) -> bool
    ensures { IsTrue result ↔ ((stand.now.block ≡ block) × (stand.now.index ≤ index)) }
{
    stand.block == block && stand.index <= index
}

/// What is known before an instruction or the end of a block of an accepted program: how many type names are in scope,
/// and the types of the registers, as a file whose registers rise. An error is want of memory.
pub fn types_at(
    alloc: Global,
    program: &Checked,
    block: u64,
    index: u64,
) -> Result<(u64, RegFile), OutOfMemory>
    requires { (c : TSeq) × (code_at (program_of (checked_program program.now)) block index ≡ Some c) }
    ensures { IfOk result (λ r. IsKnownFile (program_of (checked_program program.now)) block index r.0
        (file r.1.regs.items)) }
{
    let mut walk = Walk::new(alloc, program)?;
    let known = walk.to(block, index)?;
    Ok(known)
}
