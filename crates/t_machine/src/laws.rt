// Laws of runs, as functions that callers cite: they do nothing, or call the laws that they stand on.
ghost use Rattle.t_machine.specs.Laid.{PlacesAreReadBack};
ghost use Rattle.t_machine.specs.ProgramLaws.{ProgramLaws};
ghost use Rattle.t_machine.specs.Room.{StepsMakeWhatTheyAsk, StepsAreCovered, RestIsCovered};
ghost use Rattle.t_machine.specs.Runs.{HaltedExactly, SpentExactly, FirstRuns};
ghost use Rattle.t_machine.specs.Seldom.{SeldomRunsAreCovered};
ghost use Rattle.t_machine.specs.Tables.{FirstCounts};

use t_collect::{kept_states_drop, kept_states_follow};
use t_rules::{
    accepted_programs_are_never_stuck, erased_code_stands_at_its_place, erased_machine_starts,
    erased_states_go_on, erased_states_halt_alike, runs_are_unique, runs_weigh_within_times,
};

// What the machine stands on: laws of programs, of their erasure, and of tuples that are not kept.
pub(crate) fn programs_keep_laws()
    ensures { ProgramLaws }
{
    accepted_programs_are_never_stuck();
    runs_are_unique();
    erased_machine_starts();
    erased_code_stands_at_its_place();
    erased_states_go_on();
    erased_states_halt_alike();
    kept_states_follow();
    kept_states_drop();
}

/// The answer of a run is exact, want of memory aside: where the program is halted after at most as many steps as the
/// run is allowed, the run says with which integer and after how many steps; where it goes on after all of them, the
/// run says that they are spent.
pub fn runs_answer_exactly()
    ensures halted { HaltedExactly }
    ensures spent { SpentExactly }
{
    programs_keep_laws();
}

/// What the first run of a loaded program says of it: it halts with the integer within the steps that were allowed; or
/// its state after all of them is neither halted nor stuck.
pub fn first_runs_tell()
    ensures { FirstRuns }
{}

/// What a first run counts is how often each place is executed in all steps from the start.
pub fn first_counts_are_times()
    ensures { FirstCounts }
{}

/// What a single step allocates, and so what has to be spare for it: one tuple and `k` fields at a `malloc` of `k`
/// fields, and nothing at any other instruction.
pub fn steps_allocate_what_they_ask()
    ensures made { StepsMakeWhatTheyAsk }
    ensures covered { StepsAreCovered }
{
    programs_keep_laws();
}

/// A run in parts needs no more than a run at once: where some steps and those after them are covered, and the first
/// lowered what is spare by no more than they allocate, as `run` says of them, those after them are covered by what is
/// left.
pub fn the_rest_is_covered()
    ensures { RestIsCovered }
{}

/// Where no place of a program is executed more than n times, any number of steps from its start is covered by n times
/// the number of its `malloc`s, and n times the number of their fields. So a run that begins there with so many spare
/// never wants memory.
pub fn seldom_runs_are_covered()
    ensures { SeldomRunsAreCovered }
{
    runs_weigh_within_times();
}

/// Where the code is the blocks one after the other, a place of it tells the block and the instruction.
pub fn places_are_read_back()
    ensures { PlacesAreReadBack }
{}
