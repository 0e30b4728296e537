// Programs by hand, kept within registers 1 to 8: what the passes never make is kept as well.
use super::few_names::has_few_names;
use super::programs::{accepted, first_run, value_of};
use std::alloc::Global;
use std::cmp::max;
use std::process::Abort;
use std::test::Fail;
use t_check::Checked;
use t_reader::read;
use t_spill::spill;
use t_text::{Kind, Token, Tokens, tokens};
use t_writer::write2;

const REGISTERS: &str = "\
tal 1
main: code[]{}.
mov r9223372036854775807, 40
mov r12, 2
add r1, r9223372036854775807, r12
halt[int]
";

const PACKAGE: &str = "\
tal 1
main: code[]{}.
malloc r20[int, all[]{r9: int}]
mov r30, 41
st r20[0], r30
mov r30, next
st r20[1], r30
mov r20, pack[int, r20] as some a. <a^1, all[]{r9: a}^1>
jmp use
next: code[]{r9: int}.
add r1, r9, 1
halt[int]
use: code[]{r20: some a. <a^1, all[]{r9: a}^1>}.
unpack[a, r33], r20
ld r9, r33[0]
ld r22, r33[1]
jmp r22
";

const DATA: &str = "\
tal 2
pair: data <5 : int, one : <int^1>>
one: data <6 : int>
main: code[]{}.
mov r10, pair
ld r11, r10[1]
ld r12, r11[0]
ld r13, r10[0]
mul r1, r12, r13
halt[int]
";

const TYPES: &str = "\
tal 1
main: code[]{}.
mov r11, 7
mov r12, done
malloc r13[]
mov r14, keep[int]
jmp r14[<>]
keep: code[a, b]{r11: a, r12: all[]{r11: a}, r13: b}.
mov r10, r13
jmp r12
done: code[]{r11: int}.
mov r1, r11
halt[int]
";

const THROUGH_REGISTERS: &str = "\
tal 1
main: code[]{}.
mov r10, 5
mov r11, 0
mov r12, loop
jmp r12
loop: code[]{r10: int, r11: int}.
add r11, r11, r10
sub r10, r10, 1
mov r13, loop
bnz r10, r13
mov r1, r11
halt[int]
";

const BRANCH_AT_THE_END: &str = "\
tal 1
main: code[]{}.
mov r10, 4
mov r11, 1
jmp loop
loop: code[]{r10: int, r11: int}.
mul r11, r11, r10
sub r10, r10, 1
bnz r10, loop
jmp out
out: code[]{r11: int}.
mov r1, r11
halt[int]
";

// The tuple has two names when its second field is filled by the first name, and is filled anew by the second.
const ALIASES: &str = "\
tal 1
main: code[]{}.
malloc r10[int, int]
mov r11, 3
st r10[0], r11
mov r12, r10
mov r11, 4
st r10[1], r11
ld r13, r12[0]
st r12[1], r13
ld r14, r10[1]
ld r15, r12[1]
add r1, r14, r15
halt[int]
";

// The number of the register that stands at a place among the tokens, or 0.
fn register_at(tokens: &Tokens, at: usize) -> u64 {
    match tokens.get(at) {
        Some(
            Token {
                kind: Kind::Register(r),
                ..
            },
        ) => r,
        _ => 0,
    }
}

fn greatest_register(tokens: &Tokens) -> u64 {
    let mut top: u64 = 0;
    for at in 0..tokens.len() {
        top = max(top, register_at(tokens, at));
    }
    top
}

// The greatest register that the program's text names.
fn top_register(alloc: Global, program: &Checked) -> Result<u64, Fail> {
    let text = write2(alloc, program.program())?;
    let tokens = tokens(alloc, &text)?;
    Ok(greatest_register(&tokens))
}

// The program within eight registers.
fn within_eight(alloc: Global, program: &Checked) -> Result<Checked, Fail> {
    let program = program.program();
    if !has_few_names(program) {
        return Err(Fail::new("more type names than a program by hand has"));
    }
    let spilled = spill(alloc, program, 8)?;
    Ok(accepted(alloc, spilled)?)
}

// The program halts with this value.
fn halts(rt: &impl Abort, alloc: Global, program: &Checked, value: i64) -> Result<(), Fail> {
    let ran = first_run(alloc, program, 1000)?;
    assert_eq!(rt; value_of(ran), Some(value));
    Ok(())
}

// Within eight registers the program is accepted and halts with this value.
fn halts_within(rt: &impl Abort, alloc: Global, program: &Checked, value: i64) -> Result<(), Fail> {
    let spilled = within_eight(alloc, program)?;
    assert!(rt; top_register(alloc, &spilled)? <= 8);
    halts(rt, alloc, &spilled, value)
}

// The text has more than eight registers, and within eight it is accepted and halts with the same value.
fn is_kept(rt: &impl Abort, alloc: Global, text: &str, value: i64) -> Result<(), Fail> {
    let program = accepted(alloc, read(alloc, text.as_bytes())?)?;
    assert!(rt; top_register(alloc, &program)? > 8);
    halts(rt, alloc, &program, value)?;
    halts_within(rt, alloc, &program, value)
}

#[test]
fn the_greatest_register_is_kept(rt: HostRuntime) -> Result<(), Fail> {
    is_kept(&rt, rt.alloc(), REGISTERS, 42)
}

#[test]
fn a_package_is_kept(rt: HostRuntime) -> Result<(), Fail> {
    is_kept(&rt, rt.alloc(), PACKAGE, 42)
}

#[test]
fn data_is_kept(rt: HostRuntime) -> Result<(), Fail> {
    is_kept(&rt, rt.alloc(), DATA, 30)
}

#[test]
fn types_given_one_by_one_are_kept(rt: HostRuntime) -> Result<(), Fail> {
    is_kept(&rt, rt.alloc(), TYPES, 7)
}

#[test]
fn jumps_through_registers_are_kept(rt: HostRuntime) -> Result<(), Fail> {
    is_kept(&rt, rt.alloc(), THROUGH_REGISTERS, 15)
}

#[test]
fn a_branch_at_the_end_of_a_block_is_kept(rt: HostRuntime) -> Result<(), Fail> {
    is_kept(&rt, rt.alloc(), BRANCH_AT_THE_END, 24)
}

#[test]
fn names_of_one_tuple_are_kept(rt: HostRuntime) -> Result<(), Fail> {
    is_kept(&rt, rt.alloc(), ALIASES, 6)
}
