// The walk along the nodes.
ghost use Rattle.std.specs.Prelude.{◌++◌, [], codes, decimal, OnOk};
ghost use Rattle.page_core.specs.Names.{op_sign};
ghost use Rattle.k_terms.specs.K.{NoKTys, TKInt, TKTuple};
ghost use Rattle.k_terms.specs.Read.{knode, ktree};
ghost use Rattle.kc_notation.specs.Standing.{IsPage};
ghost use Rattle.kc_notation.specs.ClosedWalk.{Sheet, declare, pair};
ghost use Rattle.kc_notation.specs.CpsWalk.{noted, step};

use crate::Page;
use crate::cps_lines::{call, declare, enter, pack, unpack};
use idx_core::{Op, OutOfMemory};
use k_terms::{KNode, KType};
use page_core::{write_natural, write_op};

// A field of the last value is named.
fn project(
    page: &mut Page,
    typed: bool,
    level: u64,
    ty: &KType,
    field: u64,
) -> Result<(), OutOfMemory>
    ensures { OnOk result ((p : Sheet) → IsPage page.old p → IsPage page.new
        (declare p level (noted typed p (ktree ty.now)) (codes "#" ++ (decimal field ++ codes " ")))) }
{
    let mut word = Vec::new(page.alloc);
    word.extend_from_slice(b"#")?;
    write_natural(&mut word, field)?;
    word.extend_from_slice(b" ")?;
    declare(page, typed, level, ty, &word)
}

// The result of an operation on the last two values is named.
fn arith(page: &mut Page, typed: bool, level: u64, op: Op) -> Result<(), OutOfMemory>
    ensures { OnOk result ((p : Sheet) → IsPage page.old p →
        IsPage page.new (declare (pair p (op_sign op)) level (noted typed p TKInt) [])) }
{
    let mut sign = Vec::new(page.alloc);
    write_op(&mut sign, op)?;
    page.pair(&sign)?;
    declare(page, typed, level, &KType::Int, b"")
}

// A cell is set to the last value, which gives the empty tuple.
fn set(page: &mut Page, typed: bool, level: u64) -> Result<(), OutOfMemory>
    ensures { OnOk result ((p : Sheet) → IsPage page.old p →
        IsPage page.new (declare (pair p (codes " := ")) level (noted typed p (TKTuple NoKTys)) [])) }
{
    let unit = KType::Tuple(Vec::new(page.alloc));
    page.pair(b" := ")?;
    declare(page, typed, level, &unit, b"")
}

// One more node.
pub(crate) fn step(page: &mut Page, typed: bool, node: &KNode) -> Result<(), OutOfMemory>
    ensures { OnOk result ((p : Sheet) → IsPage page.old p → IsPage page.new (step typed (knode node.now) p)) }
{
    match node {
        KNode::Var(level) => page.variable(*level),
        KNode::Int(n) => page.integer(*n),
        KNode::Tuple(count) => page.tuple(*count),
        KNode::Code {
            level,
            owes,
            args,
            ..
        } => enter(page, *level, *owes, args),
        KNode::End => page.leave(),
        KNode::Name { level, ty } => declare(page, typed, *level, ty, b""),
        KNode::Proj { level, field, ty } => project(page, typed, *level, ty, *field),
        KNode::Arith { level, op } => arith(page, typed, *level, *op),
        KNode::Pack {
            level,
            hidden,
            shape,
            ..
        } => pack(page, typed, *level, hidden, shape),
        KNode::Unpack { level, ty, .. } => unpack(page, typed, *level, ty),
        KNode::Cell { level, ty } => declare(page, typed, *level, ty, b"ref "),
        KNode::Get { level, ty } => declare(page, typed, *level, ty, b"!"),
        KNode::Set { level } => set(page, typed, *level),
        KNode::Call { types, .. } => call(page, types),
        KNode::If0 => page.choose(),
        KNode::Else { .. } => page.turn(),
        KNode::Halt => page.value_line(b"halt "),
    }
}
