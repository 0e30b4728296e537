// The writer of the first version of the language, which no command calls: what is written of a text reads as the same
// program, so it is written again as it is.
use std::alloc::Global;
use std::test::Fail;
use t_reader::read;
use t_writer::write;

// Every form of type, value and instruction.
const FORMS: &[u8] =
    b"tal 1\nL0: code[]{}. malloc r1[int, <int^1, int^~0>, all[a, b]{r1:b}] mov r2, pack[int, ~5] as some \
      c. c\nunpack[d, r3], r2 st r1[0], r3 ld r4, r1[0] add r5, r4, 1 sub r5, r5, r4 mul r5, r5, ~2 bnz r5, \
      L0 jmp r6[d, <>]";

const FORMS_WRITTEN: &[u8] =
    b"tal 1\nL0: code[]{}.\nmalloc r1[int, <int^1, int^0>, all[T0, T1]{r1:T1}]\n\
      mov r2, pack[int, ~5] as some T0. T0\nunpack[T0, r3], r2\nst r1[0], r3\nld r4, r1[0]\nadd r5, r4, 1\n\
      sub r5, r5, r4\nmul r5, r5, ~2\nbnz r5, L0\njmp r6[T0, <>]\n";

// Whether a text without data stands for a program that is written as the second text.
fn is_written(alloc: Global, text: &[u8], wanted: &[u8]) -> Result<bool, Fail> {
    let program = read(alloc, text)?;
    if !program.heap.is_empty() {
        return Ok(false);
    }
    let written = write(alloc, &program)?;
    Ok(written.as_slice() == wanted)
}

#[test]
fn every_form_is_written(rt: HostRuntime) -> Result<(), Fail> {
    assert!(rt; is_written(rt.alloc(), FORMS, FORMS_WRITTEN)?);
    assert!(rt; is_written(rt.alloc(), FORMS_WRITTEN, FORMS_WRITTEN)?);
    Ok(())
}
