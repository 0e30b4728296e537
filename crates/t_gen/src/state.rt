// What code generation keeps while it walks.
ghost use Rattle.std.specs.Prelude.{◌≡◌, ◌<◌, [], length};
ghost use Rattle.t_terms.specs.Tree.{Ends};
ghost use Rattle.t_terms.specs.Read.{blocks_of, end_of};
ghost use Rattle.t_emit.specs.Code.{onto};
ghost use Rattle.t_emit.specs.Code.{fill};
ghost use Rattle.a_terms.specs.NodeTrees.{is_decl};

use crate::Ahead;
use crate::registers::Registers;
use a_scope::Entry;
use a_terms::AForm;
use idx_core::Span;
use std::alloc::Global;
use std::mem;
use t_emit::blocks::close;
use t_terms::{Block, End, Instr};

/// A term that is still to come: into which block its code goes, how many type names and variables are in scope, and
/// the registers of the variables that it uses.
#[derive(Drop)]
pub struct Place {
    pub block: usize,
    pub names: u64,
    pub vars: usize,
    pub registers: Registers,
}

/// The term that comes next: where it stands, and what is told of it.
#[derive(Drop)]
pub struct Turn<'t> {
    pub place: Place,
    pub ahead: &'t Ahead,
}

/// A walk over the nodes of a body: the code so far of the block that is open, the variables that are in scope, and
/// where the terms that are still to come stand, the next one last.
#[derive(Drop)]
pub struct Walk<'a> {
    pub alloc: Global,
    pub code: Vec<(Instr, Span)>,
    pub vars: Vec<Entry<'a>>,
    pub places: Vec<Place>,
}

/// The block's code is whole; the next code begins.
pub fn close_block(
    alloc: Global,
    out: &mut Vec<Block>,
    code: &mut Vec<(Instr, Span)>,
    at: usize,
    end: End,
)
    requires { at < length out.old.items }
    ensures filled { blocks_of out.new.items ≡ fill at (onto code.old.items (Ends (end_of end)))
        (blocks_of out.old.items) }
    ensures empty { code.new.items ≡ [] }
{
    let whole = mem::replace(code, Vec::new(alloc));
    close(out, at, whole, end);
}

/// Whether a node is a declaration.
pub fn declares(form: &AForm) -> bool
    ensures { result ≡ is_decl form.now }
{
    match form {
        AForm::Value => true,
        AForm::Proj(_) => true,
        AForm::Arith(_) => true,
        AForm::Unpack => true,
        AForm::Malloc(_) => true,
        AForm::Init(_) => true,
        AForm::Call(_) => false,
        AForm::If0 => false,
        AForm::Halt => false,
    }
}
