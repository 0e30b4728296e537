// Runs of programs.
use super::programs::loaded;
use std::process::Abort;
use std::test::Fail;
use t_machine::{Machine, Ran};

// A run of so many instructions ends so.
fn runs(rt: &impl Abort, machine: &mut Machine, fuel: u64, wanted: Ran) {
    assert_eq!(rt; machine.run(fuel), wanted);
}

#[test]
fn a_run_goes_on_where_it_stopped(rt: HostRuntime) -> Result<(), Fail> {
    let text =
        "tal 1\nL0: code[]{}. malloc r1[int] mov r2, r1 mov r3, 5 st r1[0], r3 ld r1, r1[0] halt[int]";
    let mut machine = loaded(rt.alloc(), text)?;
    runs(&rt, &mut machine, 4, Ran::Spent);
    runs(&rt, &mut machine, 7, Ran::Halted { value: 5, made: 1 });
    runs(&rt, &mut machine, 0, Ran::Halted { value: 5, made: 0 });
    Ok(())
}

// Each second step allocates a tuple of one field. No test can have all memory refused from some time on, so here only
// a further reserve is refused. That the run goes on whatever is refused is proved: `a_thousand_are_enough` in
// t_machine/proofs/Rows.antt says that the 2,000 steps are covered, and `run` that NoMemory does not come then.
#[test]
fn what_is_reserved_is_enough(rt: HostRuntime) -> Result<(), Fail> {
    let mut machine = loaded(rt.alloc(), "tal 1\nL0: code[]{}. malloc r1[int] jmp L0")?;
    machine.reserve(1000, 1000)?;
    assert!(rt; machine.reserve(u64::MAX, u64::MAX).is_err());
    assert_eq!(rt; machine.run(2000), Ran::Spent);
    Ok(())
}
