// The walk along the nodes.
ghost use Rattle.std.specs.Prelude.{◌++◌, [], codes, decimal, OnOk};
ghost use Rattle.page_core.specs.Names.{op_sign};
ghost use Rattle.c_terms.specs.Read.{cnode};
ghost use Rattle.kc_notation.specs.Standing.{IsPage};
ghost use Rattle.kc_notation.specs.ClosedWalk.{Sheet, declare, pair, step};

use crate::page::Page;
use c_terms::CNode;
use idx_core::{Op, OutOfMemory};
use page_core::{write_natural, write_op};

impl Page {
    // A field of the last value is named.
    fn project(&mut self, level: u64, note: &[u8], field: u64) -> Result<(), OutOfMemory>
        ensures { OnOk result ((p : Sheet) → IsPage self.old p →
            IsPage self.new (declare p level note.now (codes "#" ++ (decimal field ++ codes " ")))) }
    {
        let mut word = Vec::new(self.alloc);
        word.extend_from_slice(b"#")?;
        write_natural(&mut word, field)?;
        word.extend_from_slice(b" ")?;
        self.declare(level, note, &word)
    }

    // The result of an operation on the last two values is named.
    fn arith(&mut self, level: u64, note: &[u8], op: Op) -> Result<(), OutOfMemory>
        ensures { OnOk result ((p : Sheet) → IsPage self.old p →
            IsPage self.new (declare (pair p (op_sign op)) level note.now [])) }
    {
        let mut sign = Vec::new(self.alloc);
        write_op(&mut sign, op)?;
        self.pair(&sign)?;
        self.declare(level, note, b"")
    }

    // A cell is set to the last value.
    fn set(&mut self, level: u64, note: &[u8]) -> Result<(), OutOfMemory>
        ensures { OnOk result ((p : Sheet) → IsPage self.old p →
            IsPage self.new (declare (pair p (codes " := ")) level note.now [])) }
    {
        self.pair(b" := ")?;
        self.declare(level, note, b"")
    }

    // One more node, with a text behind the name that it declares.
    pub(crate) fn step(&mut self, node: &CNode, note: &[u8]) -> Result<(), OutOfMemory>
        ensures { OnOk result ((p : Sheet) → IsPage self.old p → IsPage self.new (step note.now (cnode node.now) p)) }
    {
        match node {
            CNode::Var(level) => self.variable(*level),
            CNode::Int(n) => self.integer(*n),
            CNode::Tuple(count) => self.tuple(*count),
            CNode::Code { owes, args } => self.enter(*owes, args),
            CNode::End => self.leave(),
            CNode::Apply(types) => self.apply(types),
            CNode::Pack { hidden, shape } => self.pack(hidden, shape),
            CNode::Name(level) => self.declare(*level, note, b""),
            CNode::Proj { level, field } => self.project(*level, note, *field),
            CNode::Arith { level, op } => self.arith(*level, note, *op),
            CNode::Unpack(level) => self.unpack(*level, note),
            CNode::Cell(level) => self.declare(*level, note, b"ref "),
            CNode::Get(level) => self.declare(*level, note, b"!"),
            CNode::Set(level) => self.set(*level, note),
            CNode::Call { types, count: _ } => self.call(types),
            CNode::If0 => self.choose(),
            CNode::Else => self.turn(),
            CNode::Halt => self.value_line(b"halt "),
        }
    }
}
