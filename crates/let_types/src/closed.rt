// What is known along the nodes of closed terms.
ghost use Rattle.std.specs.Prelude.{◌≡◌, ◌+◌, IfOk, OnOk, map, []};
ghost use Rattle.calc_core.specs.Read.{tree, all_trees};
ghost use Rattle.c_terms.specs.C.{TCRef, TCTuple, NoCTys};
ghost use Rattle.c_terms.specs.Read.{cnode, ctys};
ghost use Rattle.let_types.specs.Known.{but_last, change, declare, enter, entry_in, known_step, last};
ghost use Rattle.let_types.specs.Known.{last_type, leave, level_bound, named, nothing, own, put};
ghost use Rattle.let_types.specs.Known.{tuple, types_in, with_values};
ghost use Rattle.let_types.specs.KnownRead.{entry, known, seen};
ghost use Rattle.let_types.specs.Parts.{applied_type, field_type, held_type, opened_type};

use crate::named::{Named, field_of_name, held_of_name, opened_of_name, show};
use crate::walks::apply_type;
use c_terms::{CNode, CType};
use calc_core::{copy, copy_all};
use idx_core::{OutOfMemory, sum};
use std::alloc::Global;
use std::collections::VecDeque;
use std::mem;

// A value that waits: the name of a level, whose type is not copied, or any other value, with its type.
#[derive(Drop)]
pub struct Seen {
    pub level: Option<u64>,
    pub own: Named,
}

// A code's body that is open, or the main term: its names by level, and the values that wait.
#[derive(Drop)]
pub struct Frame {
    pub names: Vec<Named>,
    pub values: Vec<Seen>,
}

/// What is known along the nodes of a closed program: the types of the names in scope, and of the values that wait.
#[derive(Drop)]
pub struct Known {
    pub alloc: Global,
    pub body: Frame,
    pub around: VecDeque<Frame>,
}

// The name that a value is, or else the value by its own type.
fn name_of<'a>(names: &'a [Named], value: &'a Seen) -> &'a Named
    ensures { entry result.now ≡ entry_in (map entry names.now) (seen value.now) }
{
    match value.level {
        None => &value.own,
        Some(level) => {
            if level < names.len() as u64 {
                &names[level as usize]
            } else {
                &value.own
            }
        }
    }
}

// The types of values.
fn types_of(
    alloc: Global,
    names: &[Named],
    values: &[Seen],
    types: u64,
) -> Result<Vec<CType>, OutOfMemory>
    ensures { IfOk result (λ r. all_trees r.items ≡ types_in types (map entry names.now) (map seen values.now)) }
{
    let mut made = Vec::new(alloc);
    for value in values {
        let t = show(alloc, name_of(names, value), types)?;
        made.push(t)?;
    }
    Ok(made)
}

// The names of a code and of its arguments.
fn names_of_code(alloc: Global, owes: u64, args: &[CType]) -> Result<Vec<Named>, OutOfMemory>
    ensures { IfOk result (λ r. map entry r.items ≡ (enter 0 owes (ctys args.now) nothing).body.names) }
{
    let mut names = Vec::new(alloc);
    let args_again = copy_all(alloc, args)?;
    names.push(Named {
        ty: CType::Code {
            owes,
            args: args_again,
        },
        types: owes,
    })?;
    for t in args {
        let ty = copy(alloc, t)?;
        names.push(Named { ty, types: owes })?;
    }
    Ok(names)
}

/// The level that a node declares.
pub fn level_bound(node: &CNode) -> Option<u64>
    ensures { result ≡ level_bound (cnode node.now) }
{
    match node {
        CNode::Name(level) | CNode::Unpack(level) | CNode::Cell(level) => Some(*level),
        CNode::Get(level) | CNode::Set(level) => Some(*level),
        CNode::Proj { level, field: _ } => Some(*level),
        CNode::Arith { level, op: _ } => Some(*level),
        _ => None,
    }
}

impl Known {
    /// Nothing is known yet.
    pub fn new(alloc: Global) -> Known
        ensures { known result ≡ nothing }
    {
        Known {
            alloc,
            body: Frame {
                names: Vec::new(alloc),
                values: Vec::new(alloc),
            },
            around: VecDeque::new(alloc),
        }
    }

    /// The names in scope, by level.
    pub fn names(&self) -> &[Named]
        ensures { map entry result.now ≡ (known self.now).body.names }
    {
        &self.body.names
    }

    // One more value, the name of a level.
    fn put_name(&mut self, level: u64) -> Result<(), OutOfMemory>
        ensures { OnOk result (known self.new ≡ put (known self.old) (named level)) }
    {
        self.body.values.push(Seen {
            level: Some(level),
            own: Named {
                ty: CType::Int,
                types: 0,
            },
        })?;
        Ok(())
    }

    // One more value, of this type.
    fn put_own(&mut self, types: u64, ty: CType) -> Result<(), OutOfMemory>
        ensures { OnOk result (known self.new ≡ put (known self.old) (own types (tree ty))) }
    {
        self.body.values.push(Seen {
            level: None,
            own: Named { ty, types },
        })?;
        Ok(())
    }

    // The last value, which goes.
    fn take(&mut self) -> Seen
        ensures last { seen result ≡ last (known self.old).body.values }
        ensures rest { known self.new ≡ with_values (known self.old) (but_last (known self.old).body.values) }
    {
        match self.body.values.pop() {
            Some(value) => value,
            None => Seen {
                level: None,
                own: Named {
                    ty: CType::Int,
                    types: 0,
                },
            },
        }
    }

    // The last so many values become one, a tuple.
    fn tuple(&mut self, types: u64, count: u64) -> Result<(), OutOfMemory>
        ensures { OnOk result (known self.new ≡ tuple types count (known self.old)) }
    {
        let from = self.body.values.len().saturating_sub(count as usize);
        let fields = types_of(
            self.alloc,
            &self.body.names,
            &self.body.values[from..],
            types,
        )?;
        self.body.values.truncate(from);
        self.put_own(types, CType::Tuple(fields))
    }

    // The last value is applied to types.
    fn apply(&mut self, types: u64, ts: &[CType]) -> Result<(), OutOfMemory>
        ensures { OnOk result (known self.new ≡
            change types (applied_type (last_type types (known self.old)) (ctys ts.now)) (known self.old)) }
    {
        let value = self.take();
        let code = show(self.alloc, name_of(&self.body.names, &value), types)?;
        let made = apply_type(self.alloc, &code, ts)?;
        self.put_own(types, made)
    }

    // The last value becomes a package of this type.
    fn pack(&mut self, types: u64, shape: &CType) -> Result<(), OutOfMemory>
        ensures { OnOk result (known self.new ≡ change types (tree shape.now) (known self.old)) }
    {
        let _ = self.take();
        let made = copy(self.alloc, shape)?;
        self.put_own(types, made)
    }

    // The body of a code begins.
    fn enter(&mut self, types: u64, owes: u64, args: &[CType]) -> Result<(), OutOfMemory>
        ensures { OnOk result (known self.new ≡ enter types owes (ctys args.now) (known self.old)) }
    {
        let names = names_of_code(self.alloc, owes, args)?;
        let args = copy_all(self.alloc, args)?;
        self.put_own(types, CType::Code { owes, args })?;
        let inner = Frame {
            names,
            values: Vec::new(self.alloc),
        };
        let outer = mem::replace(&mut self.body, inner);
        self.around.push_front(outer)?;
        Ok(())
    }

    // The body of a code ends.
    fn leave(&mut self)
        ensures { known self.new ≡ leave (known self.old) (known self.old).around }
    {
        match self.around.pop_front() {
            Some(outer) => {
                self.body = outer;
            }
            None => {}
        }
    }

    // A name of this level and type is declared.
    fn declare(&mut self, level: u64, types: u64, ty: CType) -> Result<(), OutOfMemory>
        ensures { OnOk result (known self.new ≡ declare level types (tree ty) (known self.old)) }
    {
        self.body.values.truncate(0);
        self.body.names.truncate(level as usize);
        self.body.names.push(Named { ty, types })?;
        Ok(())
    }

    // The last value is named.
    fn name(&mut self, level: u64, types: u64) -> Result<(), OutOfMemory>
        ensures { OnOk result (known self.new ≡
            declare level types (last_type types (known self.old)) (known self.old)) }
    {
        let value = self.take();
        let t = show(self.alloc, name_of(&self.body.names, &value), types)?;
        self.declare(level, types, t)
    }

    // A field of the last value is named.
    fn project(&mut self, level: u64, types: u64, field: u64) -> Result<(), OutOfMemory>
        ensures { OnOk result (known self.new ≡
            declare level types (field_type field (last_type types (known self.old))) (known self.old)) }
    {
        let value = self.take();
        let t = field_of_name(self.alloc, name_of(&self.body.names, &value), types, field)?;
        self.declare(level, types, t)
    }

    // What the last value, a package, holds is named, and its hidden type.
    fn unpack(&mut self, level: u64, types: u64) -> Result<(), OutOfMemory>
        ensures { OnOk result (known self.new ≡
            declare level (types + 1) (opened_type (last_type types (known self.old))) (known self.old)) }
    {
        let more = sum(types, 1)?;
        let value = self.take();
        let t = opened_of_name(self.alloc, name_of(&self.body.names, &value), types)?;
        self.declare(level, more, t)
    }

    // A cell that holds the last value is named.
    fn cell(&mut self, level: u64, types: u64) -> Result<(), OutOfMemory>
        ensures { OnOk result (known self.new ≡
            declare level types (TCRef (last_type types (known self.old))) (known self.old)) }
    {
        let value = self.take();
        let t = show(self.alloc, name_of(&self.body.names, &value), types)?;
        let cell = CType::Ref(Box::new(self.alloc, t)?);
        self.declare(level, types, cell)
    }

    // What the last value, a cell, holds is named.
    fn get(&mut self, level: u64, types: u64) -> Result<(), OutOfMemory>
        ensures { OnOk result (known self.new ≡
            declare level types (held_type (last_type types (known self.old))) (known self.old)) }
    {
        let value = self.take();
        let t = held_of_name(self.alloc, name_of(&self.body.names, &value), types)?;
        self.declare(level, types, t)
    }

    // A cell that is set gives the empty tuple.
    fn set(&mut self, level: u64, types: u64) -> Result<(), OutOfMemory>
        ensures { OnOk result (known self.new ≡ declare level types (TCTuple NoCTys) (known self.old)) }
    {
        let none = CType::Tuple(Vec::new(self.alloc));
        self.declare(level, types, none)
    }

    // No value waits.
    fn clear(&mut self)
        ensures { known self.new ≡ with_values (known self.old) [] }
    {
        self.body.values.truncate(0);
    }

    /// One more node, where so many type names are in scope. An error is want of memory.
    pub fn step(&mut self, types: u64, node: &CNode) -> Result<(), OutOfMemory>
        ensures { OnOk result (known self.new ≡ known_step types (cnode node.now) (known self.old)) }
    {
        match node {
            CNode::Var(level) => self.put_name(*level),
            CNode::Int(_) => self.put_own(types, CType::Int),
            CNode::Tuple(count) => self.tuple(types, *count),
            CNode::Code { owes, args } => self.enter(types, *owes, args),
            CNode::End => {
                self.leave();
                Ok(())
            }
            CNode::Apply(ts) => self.apply(types, ts),
            CNode::Pack { hidden: _, shape } => self.pack(types, shape),
            CNode::Name(level) => self.name(*level, types),
            CNode::Proj { level, field } => self.project(*level, types, *field),
            CNode::Arith { level, op: _ } => self.declare(*level, types, CType::Int),
            CNode::Unpack(level) => self.unpack(*level, types),
            CNode::Cell(level) => self.cell(*level, types),
            CNode::Get(level) => self.get(*level, types),
            CNode::Set(level) => self.set(*level, types),
            CNode::Call { types: _, count: _ } | CNode::If0 | CNode::Else | CNode::Halt => {
                self.clear();
                Ok(())
            }
        }
    }
}
