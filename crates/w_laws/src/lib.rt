//! From programs of the assembly language to word code: which word code is a translation, and what it keeps.
#![tactic(auto)]

ghost use Rattle.w_laws.specs.Built.{EachBuiltMeansTheSame};
ghost use Rattle.w_laws.specs.Enough.{EnoughAtFirst};
ghost use Rattle.w_laws.specs.Laws.{MeaningIsKept, TranslatedByRules};
ghost use Rattle.w_laws.specs.ProgramLaws.{ProgramLaws};

use t_collect::{kept_states_drop, kept_states_follow};
use t_rules::{
    erased_machine_starts, erased_states_go_on, erased_states_halt_alike, runs_are_unique,
};
use w_print::{blocks_print_integers, words_say_texts};
use w_rooms::rooms_end;

// What the translation stands on: laws of programs, of their erasure, and of tuples that are not kept.
fn programs_keep_laws()
    ensures { ProgramLaws }
{
    runs_are_unique();
    erased_machine_starts();
    erased_states_go_on();
    erased_states_halt_alike();
    kept_states_follow();
    kept_states_drop();
}

/// A translation of an accepted program, over a runtime that keeps its contract, halts with what the program halts with
/// or for want of memory. It ends in no other way, and is never stuck.
pub fn meaning_is_kept()
    ensures { MeaningIsKept }
{
    programs_keep_laws();
}

/// What the function gives of a program is a translation by the rules.
pub fn function_keeps_rules()
    ensures { TranslatedByRules }
{}

/// A translation behind the blocks and words of the runtime, in a memory of its layout, writes the line of the integer
/// with which the program halts and exits with 0, or says that memory is wanted and exits with 7.
pub fn each_built_keeps_meaning()
    ensures { EachBuiltMeansTheSame }
{
    meaning_is_kept();
    blocks_print_integers();
    words_say_texts();
    rooms_end();
}

/// Where all tuples that a program makes until it halts fit into the part of the heap that is in use at first, the word
/// code writes the line of its integer and exits with 0.
pub fn few_tuples_are_enough()
    ensures { EnoughAtFirst }
{
    programs_keep_laws();
    blocks_print_integers();
}
