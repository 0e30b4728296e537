// Parts, nodes, names and blocks.
ghost use Rattle.std.specs.Prelude.{◌≡◌, ◌<◌, ◌-◌, ℕ, suc, List, [], ◌∷◌, ◌++◌, IfOk, OnOk, length};
ghost use Rattle.h_terms.specs.H.{HVal, HVar};
ghost use Rattle.calc_core.specs.Row.{top, others};
ghost use Rattle.h_terms.specs.Nodes.{more, reads, h_blocks, h_tree, HRow, HRows};
ghost use Rattle.h_pass.specs.Stream.{name_at};
ghost use Rattle.h_pass.specs.Walk.{own_of, filled, fill_own};

use crate::state::Open;
use h_terms::{HBlock, HForm, HNode, HPart};
use idx_core::OutOfMemory;
use std::alloc::Global;
use std::collections::VecDeque;
use std::mem;

// What a level under so many names is: in a code level 0 is the code itself, and its label stands for it.
pub fn name(own: Option<u64>, depth: u64, level: u64) -> HPart
    ensures { (vs : List HVal) → more result vs ≡ vs ++ name_at (own_of own) depth level ∷ [] }
{
    match own {
        Some(label) => {
            if level == 0 {
                return HPart::Label(label);
            }
            variable(depth, level)
        }
        None => variable(depth, level),
    }
}

// The variable of a level under so many names.
fn variable(depth: u64, level: u64) -> HPart
    ensures { (vs : List HVal) → more result vs ≡ vs ++ HVar (depth - 1 - level) ∷ [] }
{
    if level < depth {
        return HPart::Var(depth - 1 - level);
    }
    HPart::Var(0)
}

// One more part.
pub fn put(parts: &mut Vec<HPart>, part: HPart) -> Result<(), OutOfMemory>
    ensures { OnOk result (reads [] parts.new.items ≡ more part (reads [] parts.old.items)) }
{
    parts.push(part)?;
    Ok(())
}

// The names in scope of the next term.
pub fn depth(depths: &VecDeque<u64>) -> u64
    ensures { result ≡ top 0 depths.now.items }
{
    match depths.front() {
        Some(d) => *d,
        None => 0,
    }
}

// The next term has one name more. The names of a body are far fewer than numbers of 64 bits, so the sum is exact.
pub fn deepen(depths: &mut VecDeque<u64>) -> Result<(), OutOfMemory>
    ensures { OnOk result (top 0 depths.old.items < 18446744073709551615 →
        depths.new.items ≡ suc (top 0 depths.old.items) ∷ others depths.old.items) }
{
    let next = depth(depths).saturating_add(1);
    shorten(depths);
    depths.push_front(next)?;
    Ok(())
}

// The next term is done.
pub fn shorten(depths: &mut VecDeque<u64>)
    ensures { depths.new.items ≡ others depths.old.items }
{
    let _ = depths.pop_front();
}

impl Open {
    // Makes the parts a node.
    pub(crate) fn emit(&mut self, alloc: Global, form: HForm) -> Result<(), OutOfMemory>
        ensures nodes { OnOk result
            (self.new.nodes.items ≡ self.old.nodes.items ++ record { form = form; values = self.old.parts } ∷ []) }
        ensures parts { OnOk result (self.new.parts.items ≡ []) }
        ensures same { self.new ≡ record self.old { nodes = self.new.nodes; parts = self.new.parts } }
    {
        let values = mem::replace(&mut self.parts, Vec::new(alloc));
        self.nodes.push(HNode { form, values })?;
        Ok(())
    }
}

// A body that is put in later.
pub fn hole(alloc: Global) -> Result<Vec<HNode>, OutOfMemory>
    ensures { IfOk result (λ r. HRow r.items 1) }
{
    let mut values = Vec::new(alloc);
    values.push(HPart::Int(0))?;
    let mut nodes = Vec::new(alloc);
    nodes.push(HNode {
        form: HForm::Halt,
        values,
    })?;
    Ok(nodes)
}

// The nodes of a code become the body of its block. A code of no block is skipped.
pub fn put_body(blocks: &mut Vec<HBlock>, code: Open)
    ensures count { length blocks.new.items ≡ length blocks.old.items }
    ensures made { h_blocks blocks.new.items ≡ fill_own code.own (h_tree code.nodes.items) (h_blocks blocks.old.items) }
    ensures rows { HRow code.nodes.items 1 → HRows blocks.old.items → HRows blocks.new.items }
{
    let Open {
        own,
        nodes,
        parts: _,
        call: _,
        depths: _,
    } = code;
    match own {
        None => (),
        Some(label) => fill(blocks, label, nodes),
    }
}

// The body of block `label` is changed. A label of no block is skipped.
fn fill(blocks: &mut Vec<HBlock>, label: u64, body: Vec<HNode>)
    ensures count { length blocks.new.items ≡ length blocks.old.items }
    ensures made { h_blocks blocks.new.items ≡ filled label (h_tree body.items) (h_blocks blocks.old.items) }
    ensures rows { HRow body.items 1 → HRows blocks.old.items → HRows blocks.new.items }
{
    let at = label as usize;
    if at < blocks.len() {
        blocks[at].body = body;
    }
}
