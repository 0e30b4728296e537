// Programs.
ghost use Rattle.std.specs.Prelude.{◌≡◌, ◌≤◌, [], IfOk};
ghost use Rattle.t_terms.specs.ReadProgram.{program as program_of};
ghost use Rattle.t_text.specs.Text.{most_open, StandsFor, ReadsBack};
ghost use Rattle.t_terms.specs.Nesting.{nesting};
ghost use Rattle.t_writer.specs.Lexeme.{render};
ghost use Rattle.t_writer.specs.Written.{HasHeader, HasSecondHeader, program_written, second_written};

use crate::blocks::write_blocks;
use crate::heap::write_heap;
use idx_core::OutOfMemory;
use std::alloc::Global;
use t_terms::TProgram;
use t_text::keeps_by_nesting;

/// A text in the first version of the language that stands for a program without data, places aside. Its first line is
/// `tal 1`, and its bytes are those of the program's tokens as the definition of written texts lays them out, so one
/// program has one such text. Where the program's nesting keeps the limit on open constructs, the text does, and so it
/// reads as the program. Answers want of memory alone.
pub fn write(alloc: Global, program: &TProgram) -> Result<Vec<u8>, OutOfMemory>
    requires no_data { program.now.heap.items ≡ [] }
    ensures stands { IfOk result (λ text. StandsFor text.items (program_of program.now)) }
    ensures header { IfOk result (λ text. HasHeader text.items) }
    ensures same { IfOk result (λ text. text.items ≡ render (program_written (program_of program.now).blocks)) }
    ensures reads { IfOk result (λ text.
        nesting (program_of program.now) ≤ most_open → ReadsBack text.items (program_of program.now)) }
{
    keeps_by_nesting();
    let mut text = Vec::from_slice(alloc, b"tal 1\n")?;
    write_blocks(&mut text, &program.blocks)?;
    Ok(text)
}

/// A text in the second version of the language that stands for a program, places aside. Its first line is `tal 2`, and
/// its bytes are those of the program's tokens as the definition of written texts lays them out: the data, a line each,
/// and then the blocks. So one program has one such text. Where the program's nesting keeps the limit on open
/// constructs, the text does, and so it reads as the program. Answers want of memory alone.
pub fn write2(alloc: Global, program: &TProgram) -> Result<Vec<u8>, OutOfMemory>
    ensures stands { IfOk result (λ text. StandsFor text.items (program_of program.now)) }
    ensures header { IfOk result (λ text. HasSecondHeader text.items) }
    ensures same { IfOk result (λ text. text.items ≡ render (second_written (program_of program.now))) }
    ensures reads { IfOk result (λ text.
        nesting (program_of program.now) ≤ most_open → ReadsBack text.items (program_of program.now)) }
{
    keeps_by_nesting();
    let mut text = Vec::from_slice(alloc, b"tal 2\n")?;
    write_heap(&mut text, &program.heap)?;
    write_blocks(&mut text, &program.blocks)?;
    Ok(text)
}
