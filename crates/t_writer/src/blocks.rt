// Blocks.
ghost use Rattle.std.specs.Prelude.{◌≡◌, ◌++◌, ℕ, OnOk};
ghost use Rattle.t_terms.specs.Read.{body as body_of, end_of, block as block_of, blocks_of};
ghost use Rattle.t_terms.specs.Spanned.{seq_of};
ghost use Rattle.t_terms.specs.Whole.{WellFormedSeq, WellFormedBlock, WellFormedBlocks};
ghost use Rattle.t_writer.specs.Lexeme.{render};
ghost use Rattle.t_writer.specs.Written.{seq_written, block_written, blocks_written};

use crate::code::{write_end, write_instr};
use crate::names::{write_binds, write_name};
use crate::types::write_file;
use idx_core::{OutOfMemory, Span};
use t_terms::{Block, End, Instr, names_after};

// Instructions and an end inside `depth` type names, a line for each.
fn write_code(
    text: &mut Vec<u8>,
    body: &[(Instr, Span)],
    end: &End,
    depth: u64,
) -> Result<(), OutOfMemory>
    requires { (blocks heap : ℕ) × WellFormedSeq blocks heap depth (seq_of (body_of body.now) (end_of end.now)) }
    ensures { OnOk result (text.new.items ≡
        text.old.items ++ render (seq_written depth (seq_of (body_of body.now) (end_of end.now)))) }
{
    let mut names = depth;
    for entry in body {
        write_instr(text, &entry.0, names)?;
        text.push(b'\n')?;
        names = names_after(&entry.0, names);
    }
    write_end(text, end, names)?;
    text.push(b'\n')?;
    Ok(())
}

// A block by its number: a line for its label and what it takes, and then its code.
fn write_block(text: &mut Vec<u8>, number: u64, block: &Block) -> Result<(), OutOfMemory>
    requires { (blocks heap : ℕ) × WellFormedBlock blocks heap (block_of block.now) }
    ensures { OnOk result (text.new.items ≡
        text.old.items ++ render (block_written number (block_of block.now))) }
{
    write_name(text, b'L', number)?;
    text.extend_from_slice(b": code")?;
    write_binds(text, 0, block.owes)?;
    write_file(text, &block.regs.regs, block.owes)?;
    text.extend_from_slice(b".\n")?;
    write_code(text, &block.body, &block.end, block.owes)?;
    Ok(())
}

// The blocks in turn.
pub(crate) fn write_blocks(text: &mut Vec<u8>, blocks: &[Block]) -> Result<(), OutOfMemory>
    requires { (count heap : ℕ) × WellFormedBlocks count heap (blocks_of blocks.now) }
    ensures { OnOk result (text.new.items ≡
        text.old.items ++ render (blocks_written 0 (blocks_of blocks.now))) }
{
    for (i, block) in blocks.iter().enumerate() {
        write_block(text, i as u64, block)?;
    }
    Ok(())
}
