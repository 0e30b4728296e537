// What deep terms evaluate to, and what becomes of them in the passes and in the machine.
use super::forms::program;
use f_check::Program;
use f_eval::{Ended, eval};
use f_terms::has_cells;
use idx_core::OutOfMemory;
use k_pass::cps;
use k_terms::codes;
use pipeline::compile;
use std::alloc::Global;
use std::process::Abort;
use std::test::Fail;
use t_machine::{Ran, load};

// What is asked of a program.
#[derive(Clone, Copy)]
enum What {
    // its value, after so many turns
    Value(u64),
    // how many codes its conversion has
    Codes,
    // the integer with which it halts, once it is compiled
    Halt,
}

// The value of a program without cells, where it comes after this very number of turns.
fn value(alloc: Global, program: &Program, turns: u64) -> Result<Option<i64>, OutOfMemory> {
    if has_cells(program.term()) {
        return Ok(None);
    }
    match eval(alloc, program, turns)? {
        Ended::Value { value, used } if used == turns => Ok(Some(value)),
        _ => Ok(None),
    }
}

fn halt(alloc: Global, program: &Program) -> Result<Option<i64>, OutOfMemory> {
    let compiled = compile(alloc, program)?;
    let mut machine = load(alloc, &compiled)?;
    match machine.run(1_000_000) {
        Ran::Halted { value, .. } => Ok(Some(value)),
        Ran::Spent | Ran::NoMemory { .. } => Ok(None),
    }
}

fn count(alloc: Global, program: &Program) -> Result<Option<i64>, OutOfMemory> {
    Ok(i64::try_from(codes(&cps(alloc, program)?)).ok())
}

fn outcome(alloc: Global, program: &Program, what: What) -> Result<Option<i64>, OutOfMemory> {
    match what {
        What::Value(turns) => value(alloc, program, turns),
        What::Codes => count(alloc, program),
        What::Halt => halt(alloc, program),
    }
}

// That comes of each program.
fn each(rt: &impl Abort, alloc: Global, rows: &[(&[(&str, u64)], What, i64)]) -> Result<(), Fail> {
    for (pieces, what, wanted) in rows {
        let program = program(alloc, pieces)?;
        assert_eq!(rt; outcome(alloc, &program, *what)?, Some(*wanted));
    }
    Ok(())
}

// 1 + (1 + .. + (1 + 1))
const SUM: &[(&str, u64)] = &[("1", 50000), ("+", 49999)];

// (fix f(x:int):int. x) ((fix f(x:int):int. x) (.. 1)), 50,000 calls
const CALLS: &[(&str, u64)] = &[("xf", 50000), ("1", 1), ("@", 50000)];

// the same with 20,000 calls: each function is named before the first call, so the later passes write as many
// environments as there are pairs of calls, and conversion alone is tried
const FEWER_CALLS: &[(&str, u64)] = &[("xf", 20000), ("1", 1), ("@", 20000)];

// #1 <#1 <.. 1>>, 50,000 tuples of one field
const TUPLES: &[(&str, u64)] = &[("1", 1), ("<#", 50000)];

// (fix g(f:int -> int):int. f (f (.. 1))) (fix f(x:int):int. x + 1): each continuation is within another, and has two
// free variables, f and the continuation of g
const CONTINUATIONS: &[(&str, u64)] = &[("x", 20000), ("1", 1), ("@", 20000), ("gx1+f@", 1)];

// #1 <1> + (#1 <1> + .. (fix f(x:int):int. x) 1): the one continuation has a free variable for each operand
const KEPT: &[(&str, u64)] = &[("1<#", 20000), ("xf1@", 1), ("+", 20000)];

// let x = (let x = .. 1 in x + 1) in x + 1
const LETS: &[(&str, u64)] = &[("1", 1), ("x1+=", 10000)];

// open [a, x] = pack [int, open .. in 1] as some a. a in 1, and with (fix f(y:int):int. y) 1 for the last 1
const OPENS: &[(&str, u64)] = &[("1", 1), ("h1o", 1000)];

const CALLED_OPENS: &[(&str, u64)] = &[("1", 1), ("hxf1@o", 100)];

// !(let c = (.. ref 0) in let u = c := !c + 1 in c)
const CELLS: &[(&str, u64)] = &[("0r", 1), ("xx!1+:y==", 1000), ("!", 1)];

#[test]
fn deep_terms_evaluate(rt: HostRuntime) -> Result<(), Fail> {
    each(
        &rt,
        rt.alloc(),
        &[
            (SUM, What::Value(0), 50000),
            (CALLS, What::Value(50000), 1),
            (TUPLES, What::Value(0), 1),
            (CONTINUATIONS, What::Value(20001), 20001),
        ],
    )
}

#[test]
fn deep_terms_are_converted(rt: HostRuntime) -> Result<(), Fail> {
    each(
        &rt,
        rt.alloc(),
        &[
            (SUM, What::Codes, 0),
            (FEWER_CALLS, What::Codes, 40000),
            (LETS, What::Codes, 0),
            (OPENS, What::Codes, 0),
            (CALLED_OPENS, What::Codes, 200),
            (CELLS, What::Codes, 0),
        ],
    )
}

#[test]
fn deep_terms_are_compiled(rt: HostRuntime) -> Result<(), Fail> {
    each(
        &rt,
        rt.alloc(),
        &[
            (SUM, What::Halt, 50000),
            (CONTINUATIONS, What::Halt, 20001),
            (KEPT, What::Halt, 20001),
            (LETS, What::Halt, 10001),
            (OPENS, What::Halt, 1),
            (CALLED_OPENS, What::Halt, 1),
            (CELLS, What::Halt, 1000),
        ],
    )
}
