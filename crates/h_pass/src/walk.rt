// The walk along the nodes of a closed term.
ghost use Rattle.std.specs.Prelude.{◌≡◌, ℕ, List, [], ◌∷◌, None, IfOk, OnOk};
ghost use Rattle.c_terms.specs.Stream as S;
ghost use Rattle.c_terms.specs.Read.{ctys, cnode};
ghost use Rattle.h_pass.specs.Walk.{Goes, Steps, Declares, IsPart, Ends};

use crate::parts::{deepen, depth, hole, name, put, put_body, shorten};
use crate::state::{Open, Walk};
use c_terms::{CNode, CType};
use h_terms::{HBlock, HForm, HPart};
use idx_core::OutOfMemory;
use std::alloc::Global;
use std::collections::VecDeque;
use std::mem;

impl Walk {
    // One more node.
    pub(crate) fn step(&mut self, alloc: Global, node: CNode) -> Result<(), OutOfMemory>
        ensures { OnOk result (Steps self.old (cnode node) self.new) }
    {
        match node {
            CNode::Var(level) => self.variable(level),
            CNode::Int(n) => self.part(HPart::Int(n)),
            CNode::Tuple(count) => self.part(HPart::Tuple(count)),
            CNode::Code { owes, args } => self.begin(alloc, owes, args),
            CNode::End => self.end(alloc),
            CNode::Apply(types) => self.part(HPart::Apply(types)),
            CNode::Pack { hidden, shape } => self.part(HPart::Pack { hidden, shape }),
            CNode::Name(_) => self.declare(alloc, HForm::Name),
            CNode::Proj { level: _, field } => self.declare(alloc, HForm::Proj(field)),
            CNode::Arith { level: _, op } => self.declare(alloc, HForm::Arith(op)),
            CNode::Unpack(_) => self.declare(alloc, HForm::Unpack),
            CNode::Cell(_) => self.declare(alloc, HForm::Cell),
            CNode::Get(_) => self.declare(alloc, HForm::Get),
            CNode::Set(_) => self.declare(alloc, HForm::Set),
            CNode::Call { types, count: _ } => {
                self.call(types);
                Ok(())
            }
            CNode::If0 => self.choose(alloc),
            CNode::Else => self.turn(alloc),
            CNode::Halt => self.halt(alloc),
        }
    }

    // A variable: its level becomes an index, or the label of the code.
    fn variable(&mut self, level: u64) -> Result<(), OutOfMemory>
        ensures { OnOk result (Steps self.old (S.MVar level) self.new) }
    {
        let here = depth(&self.current.depths);
        let part = name(self.current.own, here, level);
        put(&mut self.current.parts, part)?;
        Ok(())
    }

    // A part of a value.
    fn part(&mut self, part: HPart) -> Result<(), OutOfMemory>
        ensures { OnOk result ((n : S.CNd) → IsPart part n → Steps self.old n self.new) }
    {
        put(&mut self.current.parts, part)?;
        Ok(())
    }

    // A code begins: its label is the next number, and stands where the code stood.
    fn begin(&mut self, alloc: Global, owes: u64, args: Vec<CType>) -> Result<(), OutOfMemory>
        ensures { OnOk result (Steps self.old (S.MCode owes (ctys args.items)) self.new) }
    {
        let label = self.blocks.len() as u64;
        let count = args.len() as u64 + 1;
        let body = hole(alloc)?;
        self.blocks.push(HBlock { owes, args, body })?;
        put(&mut self.current.parts, HPart::Label(label))?;
        let mut depths = VecDeque::new(alloc);
        depths.push_front(count)?;
        let inner = Open {
            own: Some(label),
            nodes: Vec::new(alloc),
            parts: Vec::new(alloc),
            call: None,
            depths,
        };
        let outer = mem::replace(&mut self.current, inner);
        self.outer.push_front(outer)?;
        Ok(())
    }

    // The code ends.
    fn end(&mut self, alloc: Global) -> Result<(), OutOfMemory>
        ensures { OnOk result (Steps self.old S.MEnd self.new) }
    {
        self.finish_call(alloc)?;
        self.close();
        Ok(())
    }

    // The nodes of the code become the body of its block.
    fn close(&mut self)
        ensures { self.old.current.call ≡ None → Steps self.old S.MEnd self.new }
    {
        let Some(around) = self.outer.pop_front() else {
            return;
        };
        let code = mem::replace(&mut self.current, around);
        put_body(&mut self.blocks, code);
    }

    // A declaration.
    fn declare(&mut self, alloc: Global, form: HForm) -> Result<(), OutOfMemory>
        ensures { OnOk result ((n : S.CNd) → Declares form n → Steps self.old n self.new) }
    {
        self.current.emit(alloc, form)?;
        deepen(&mut self.current.depths)?;
        Ok(())
    }

    // A call, whose arguments follow.
    fn call(&mut self, types: Vec<CType>)
        ensures { (count : ℕ) → Steps self.old (S.MCall (ctys types.items) count) self.new }
    {
        self.current.call = Some(types);
    }

    // The call that waits has its arguments.
    pub(crate) fn finish_call(&mut self, alloc: Global) -> Result<(), OutOfMemory>
        ensures goes { OnOk result ((rest : List S.CNd) → Ends rest → Goes self.old rest self.new rest) }
        ensures none { OnOk result (self.new.current.call ≡ None) }
    {
        match mem::replace(&mut self.current.call, None) {
            None => Ok(()),
            Some(types) => {
                self.current.emit(alloc, HForm::Call(types))?;
                shorten(&mut self.current.depths);
                Ok(())
            }
        }
    }

    // A test: two terms follow.
    fn choose(&mut self, alloc: Global) -> Result<(), OutOfMemory>
        ensures { OnOk result (Steps self.old S.MIf self.new) }
    {
        self.current.emit(alloc, HForm::If0)?;
        let here = depth(&self.current.depths);
        self.current.depths.push_front(here)?;
        Ok(())
    }

    // The second term of a test follows.
    fn turn(&mut self, alloc: Global) -> Result<(), OutOfMemory>
        ensures { OnOk result (Steps self.old S.MElse self.new) }
    {
        self.finish_call(alloc)?;
        Ok(())
    }

    // The term ends with a value.
    fn halt(&mut self, alloc: Global) -> Result<(), OutOfMemory>
        ensures { OnOk result (Steps self.old S.MHalt self.new) }
    {
        self.current.emit(alloc, HForm::Halt)?;
        shorten(&mut self.current.depths);
        Ok(())
    }
}
