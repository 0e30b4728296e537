// Laws of the definitions that `talc` is proved by, as functions that do nothing but call other laws. Callers cite
// them.
ghost use Rattle.talc_core.specs.FirstFault.{OneFault, NoFaultWhereTaken, TakenOrFault};
ghost use Rattle.talc_core.specs.NativeText.{NativeRunsTheSame, NativeShowsTheSame};
ghost use Rattle.talc_core.specs.NativeListing.{NativeListingShowsTheFile, OneNativeListing};
ghost use Rattle.talc_core.specs.Composition.{CompiledIsTaken, CompiledMeansTheSame, CompiledShowsTheSame};
ghost use Rattle.talc_core.specs.Composition.{CompiledRunsAreEvaluations, CompiledRunsAreShown};
ghost use Rattle.talc_core.specs.Composition.{CompiledEvaluationsRun, CompiledValuesRun};
ghost use Rattle.talc_core.specs.Composition.{CompiledNeverSticks, CompiledGoesOn, CompiledIsKept, CompiledIsCovered};
ghost use Rattle.talc_core.specs.Composition.{BoundedIsTaken, BoundedMeansTheSame, BoundedShowsTheSame};
ghost use Rattle.talc_core.specs.Composition.{BoundedHasFewRegisters, BoundedIsKept};
ghost use Rattle.talc_core.specs.Composition.{UpgradedIsTaken, UpgradedIsTheSame, UpgradedRunsTheSame};
ghost use Rattle.talc_core.specs.Composition.{UpgradedTracesTheSame, UpgradedNeverSticks, UpgradedIsKept};
ghost use Rattle.talc_core.specs.Composition.{OneBoundedText, OneCompiledText, OneUpgrade, OneWrittenText};
ghost use Rattle.talc_core.specs.Composition.{OneForm, ShownAssemblyIsCompiled, ShownSourceIsTheSame};
ghost use Rattle.talc_core.specs.Composition.{ShownSourceIsTaken, ShownSourceShowsTheSame, ShownSourceIsKept};
ghost use Rattle.talc_core.specs.CostLaws.{OneCost, CostEndsAsRun};
ghost use Rattle.talc_core.specs.CostNumbers.{PageIsOfExecuted, CountsAreTimes, KindsAreSteps, RowsAddUp};
ghost use Rattle.talc_core.specs.CostNumbers.{MallocsAreTuples, FieldsAreMade, EnteredIsEntries};
ghost use Rattle.talc_core.specs.Exact.{HeadlineIsExact};
ghost use Rattle.talc_core.specs.Explained.{CheckedIsExplained, OneExplanation, TakenIsExplained};
ghost use Rattle.talc_core.specs.Listed.{OneFaultListed, OneListing};
ghost use Rattle.talc_core.specs.Binding.{OneTypesPage, TypesEndAsTypeof};
ghost use Rattle.talc_core.specs.TextLaws.{MismatchLaws, TextLaws};
ghost use Rattle.talc_core.specs.Traced.{LinesShowKinds, OneLine};
ghost use Rattle.talc_core.specs.TraceLaws.{OneTrace, TraceEndsAsRun};

use cost_page::kinds_add_up;
use f_grammar::{closed_terms, one_term, term_or_fault};
use f_terms::{
    evaluation_leaves_at_most_its_turns, no_fault_beside_a_pass, one_answer, one_type,
    pass_or_fault, passes_where_typed, programs_are_never_stuck,
};
use t_machine::seldom_runs_are_covered;
use t_rules::{
    accepted_or_fault, accepted_programs_are_never_stuck, accepted_programs_go_on,
    erased_code_stands_at_its_place, erased_words_are_of_their_kind, no_fault_where_accepted,
    places_are_known, runs_are_unique, runs_count_alike,
};
use t_text::{at_most_one_program, program_or_fault};

// What the laws of texts stand on: laws of the crates below.
pub(crate) fn texts_keep_laws()
    ensures { TextLaws }
{
    one_term();
    closed_terms();
    term_or_fault();
    f_grammar::no_fault_where_read();
    f_grammar::one_fault();
    one_type();
    passes_where_typed();
    pass_or_fault();
    no_fault_beside_a_pass();
    f_terms::one_fault();
    one_answer();
    programs_are_never_stuck();
    evaluation_leaves_at_most_its_turns();
    at_most_one_program();
    program_or_fault();
    t_text::no_fault_where_read();
    t_text::at_most_one_fault();
    accepted_or_fault();
    no_fault_where_accepted();
    t_rules::at_most_one_fault();
    runs_are_unique();
    accepted_programs_go_on();
    accepted_programs_are_never_stuck();
}

// And what laws of the types that are at odds in faults, and of what could stand at their places, stand on.
fn mismatches_keep_laws()
    ensures { MismatchLaws }
{
    f_terms::one_mismatch();
    t_rules::at_most_one_mismatch();
    talc_wanted::source_laws::one_line();
    talc_wanted::assembly_laws::one_line();
}

/// Two first faults of one text are equal, where the same is needed of it.
pub fn one_fault()
    ensures { OneFault }
{
    texts_keep_laws();
}

/// A text that is what is needed has no fault.
pub fn no_fault_where_taken()
    ensures { NoFaultWhereTaken }
{
    texts_keep_laws();
}

/// Each text is what is needed of it, or has a first fault; an assembly text where it has at most 9223372036854775807
/// bytes, which is what a slice of memory may have.
pub fn taken_or_fault()
    ensures { TakenOrFault }
{
    texts_keep_laws();
}

/// What `compile` writes is a text that `check` and `run` take: it stands for a program that the typing rules accept.
pub fn compiled_is_taken()
    ensures { CompiledIsTaken }
{}

/// The program that `run` reads of what `compile` wrote means the same as the term that `eval` reads of the source.
pub fn compiled_means_the_same()
    ensures { CompiledMeansTheSame }
{
    texts_keep_laws();
}

/// The integer that `run` shows of what `compile` wrote is the one that `eval` shows of the source.
pub fn compiled_shows_the_same()
    ensures { CompiledShowsTheSame }
{
    texts_keep_laws();
    one_answer();
}

/// What `run` shows of what `compile` wrote within so many instructions, the source evaluates to within as many turns.
pub fn compiled_runs_are_evaluations()
    ensures { CompiledRunsAreEvaluations }
{
    texts_keep_laws();
}

/// And `eval` shows it, where the source has no cells.
pub fn compiled_runs_are_shown()
    ensures { CompiledRunsAreShown }
{
    texts_keep_laws();
}

/// What the source evaluates to within so many turns, `run` shows of what `compile` wrote, within once more than these
/// turns times the number of its instructions and jumps.
pub fn compiled_evaluations_run()
    ensures { CompiledEvaluationsRun }
{
    texts_keep_laws();
}

/// So `run` shows of what `compile` wrote what `eval` shows of the source.
pub fn compiled_values_run()
    ensures { CompiledValuesRun }
{
    texts_keep_laws();
}

/// Where n turns are enough for the source, n + 1 times the `malloc`s of what `compile` wrote, and as often their
/// fields, are memory enough for any number of its instructions: with so many spare a run of it never wants memory.
pub fn compiled_is_covered()
    ensures { CompiledIsCovered }
{
    texts_keep_laws();
    seldom_runs_are_covered();
}

/// What `compile` wrote never sticks.
pub fn compiled_never_sticks()
    ensures { CompiledNeverSticks }
{
    texts_keep_laws();
}

/// A process of the executable file that `native` makes of what `compile` wrote shows the integer to which the source
/// evaluates and ends with 0, or with 6 where the system does not take that line, or with 7 for want of memory. Where
/// the source evaluates to none it goes on for ever, or ends with 7.
pub fn native_shows_the_same()
    ensures { NativeShowsTheSame }
{
    texts_keep_laws();
}

/// A process of the executable file that `native` makes of a text shows what `run` shows of the text: the same line, or
/// it ends with 6 where the system does not take that line, or with 7 for want of memory. What it shows where it ends
/// with 0, `run` shows.
pub fn native_runs_the_same()
    ensures { NativeRunsTheSame }
{
    texts_keep_laws();
}

/// What `native --listing` shows of a text is one page.
pub fn one_native_listing()
    ensures { OneNativeListing }
{
    texts_keep_laws();
}

/// What `native --listing` shows of a text is the code of the executable file that `native` makes of it with the same
/// heap: each byte in order, and each instruction as the processor reads it at its address.
pub fn native_listing_shows_the_file()
    ensures { NativeListingShowsTheFile }
{
    texts_keep_laws();
}

/// What `compile` wrote goes on after every number of instructions exactly where the source is spent at every number of
/// turns.
pub fn compiled_goes_on()
    ensures { CompiledGoesOn }
{
    texts_keep_laws();
}

/// What `compile` wrote is upgraded to the same bytes.
pub fn compiled_is_kept()
    ensures { CompiledIsKept }
{
    texts_keep_laws();
}

/// What `compile` with a number of registers writes is a text that `check` and `run` take too.
pub fn bounded_is_taken()
    ensures { BoundedIsTaken }
{}

/// Its program means the same as the term of the source.
pub fn bounded_means_the_same()
    ensures { BoundedMeansTheSame }
{
    texts_keep_laws();
}

/// So `run` shows of it the integer that `eval` shows of the source.
pub fn bounded_shows_the_same()
    ensures { BoundedShowsTheSame }
{
    texts_keep_laws();
    one_answer();
}

/// And the program that is read of it has no register above that number.
pub fn bounded_has_few_registers()
    ensures { BoundedHasFewRegisters }
{
    texts_keep_laws();
}

/// It is upgraded to the same bytes.
pub fn bounded_is_kept()
    ensures { BoundedIsKept }
{
    texts_keep_laws();
}

/// What `upgrade` writes is a text that `check`, `run` and `upgrade` take: it stands for a program that the typing
/// rules accept.
pub fn upgraded_is_taken()
    ensures { UpgradedIsTaken }
{}

/// The program that is read of what `upgrade` wrote is the one that is read of the old text, places aside.
pub fn upgraded_is_the_same()
    ensures { UpgradedIsTheSame }
{
    texts_keep_laws();
}

/// What `run` shows of what `upgrade` wrote is what it shows of the old text, with the same status.
pub fn upgraded_runs_the_same()
    ensures { UpgradedRunsTheSame }
{
    texts_keep_laws();
}

/// What `trace` shows of what `upgrade` wrote is what it shows of the old text, with the same status.
pub fn upgraded_traces_the_same()
    ensures { UpgradedTracesTheSame }
{
    texts_keep_laws();
}

/// What `upgrade` wrote never sticks.
pub fn upgraded_never_sticks()
    ensures { UpgradedNeverSticks }
{
    texts_keep_laws();
}

/// What `upgrade` wrote is upgraded to the same bytes.
pub fn upgraded_is_kept()
    ensures { UpgradedIsKept }
{
    texts_keep_laws();
}

/// A text is upgraded to one text at most.
pub fn one_upgrade()
    ensures { OneUpgrade }
{
    texts_keep_laws();
}

/// Two texts that `compile` or `upgrade` wrote, of programs that are the same, places aside, are the same bytes.
pub fn one_written_text()
    ensures { OneWrittenText }
{
    texts_keep_laws();
}

/// Two source texts of one program, places aside, are compiled to the same bytes.
pub fn one_compiled_text()
    ensures { OneCompiledText }
{
    texts_keep_laws();
}

/// So too with a number of registers.
pub fn one_bounded_text()
    ensures { OneBoundedText }
{
    texts_keep_laws();
}

/// A program has one line at most after so many steps.
pub fn one_line()
    ensures { OneLine }
{
    runs_are_unique();
    places_are_known();
}

/// Each word that a line of an accepted program shows is of the kind of its type: an integer at `int`, the address of a
/// tuple of the heap at a tuple type, the label of a block at a code type.
pub fn lines_show_kinds()
    ensures { LinesShowKinds }
{
    erased_words_are_of_their_kind();
}

/// What `trace` shows of a text, and its status, are told by the text and the two numbers.
pub fn one_trace()
    ensures { OneTrace }
{
    texts_keep_laws();
    one_line();
}

/// The last line that `trace` shows is the one that `run` shows of the text within as many instructions, with the same
/// status.
pub fn trace_ends_as_run()
    ensures { TraceEndsAsRun }
{}

/// What `cost` shows of a text, and the status that it ends with, are told by the text and the fuel.
pub fn one_cost()
    ensures { OneCost }
{
    texts_keep_laws();
    runs_count_alike();
}

/// The last line that `cost` shows of a text is what `run` shows of it within as many instructions, with the same
/// status.
pub fn cost_ends_as_run()
    ensures { CostEndsAsRun }
{}

/// The page of `cost` is told by its number of steps, the index at which they end, and the places of the program, each
/// with its count.
pub fn page_is_of_executed()
    ensures { PageIsOfExecuted }
{}

/// The count of each place that `cost` reads is how many steps of its run start there.
pub fn counts_are_times()
    ensures { CountsAreTimes }
{}

/// The number of a kind in `cost`, before 64 bits cap it, is how many steps start at an instruction of that kind.
pub fn kinds_are_steps()
    ensures { KindsAreSteps }
{
    erased_code_stands_at_its_place();
}

/// The numbers of all kinds in `cost` come to the number of its steps.
pub fn rows_add_up()
    ensures { RowsAddUp }
{
    erased_code_stands_at_its_place();
    kinds_add_up();
}

/// The number of tuples in `cost`, before 64 bits cap it, is how many its run allocates.
pub fn mallocs_are_tuples()
    ensures { MallocsAreTuples }
{
    erased_code_stands_at_its_place();
}

/// So is the number of fields.
pub fn fields_are_made()
    ensures { FieldsAreMade }
{
    erased_code_stands_at_its_place();
}

/// The number of blocks entered in `cost` is how many blocks its run enters, the first one at the start too.
pub fn entered_is_entries()
    ensures { EnteredIsEntries }
{
    erased_code_stands_at_its_place();
}

/// Of each text that `check` takes `explain` shows that there is no fault: its first token is the word `tal`.
pub fn taken_is_explained()
    ensures { TakenIsExplained }
{
    t_text::assembly_begins_so();
}

/// Of each text whose first token is the word `tal`, `explain` shows that there is no fault where `check` takes it, and
/// a page on the fault for which `check` refuses it, and of no other text and on no other fault.
pub fn checked_is_explained()
    ensures { CheckedIsExplained }
{
    t_text::no_token_fault_where_cut();
}

/// What `explain` shows of a text is told by its name and the text.
pub fn one_explanation()
    ensures { OneExplanation }
{
    texts_keep_laws();
    mismatches_keep_laws();
}

/// What `listing` shows of a text is told by the text.
pub fn one_listing()
    ensures { OneListing }
{
    texts_keep_laws();
    places_are_known();
}

/// What `types` shows of a text is told by the text.
pub fn one_types_page()
    ensures { OneTypesPage }
{
    texts_keep_laws();
    f_lexer::one_cut();
    types_page::one_binding();
}

/// The last line that `types` shows is the one that `typeof` shows of the text.
pub fn types_end_as_typeof()
    ensures { TypesEndAsTypeof }
{}

/// Of a text with a first fault `listing` shows one text, told by its name and the text.
pub fn one_fault_listed()
    ensures { OneFaultListed }
{
    texts_keep_laws();
    mismatches_keep_laws();
    places_are_known();
}

/// What `show` shows of a text in a form is one text.
pub fn one_form()
    ensures { OneForm }
{
    texts_keep_laws();
}

/// What `show` shows as `assembly` is what `compile` writes.
pub fn shown_assembly_is_compiled()
    ensures { ShownAssemblyIsCompiled }
{
    texts_keep_laws();
}

/// What `show` shows as `source` stands for the term of the source text, places aside, and for no other.
pub fn shown_source_is_the_same()
    ensures { ShownSourceIsTheSame }
{
    f_writer::written_twice_is_written_once();
}

/// It is a text of a program, where it has no more bytes than a source may have.
pub fn shown_source_is_taken()
    ensures { ShownSourceIsTaken }
{
    f_writer::written_texts_are_within();
}

/// Each form that `show` shows of it is the one that it shows of the source text.
pub fn shown_source_shows_the_same()
    ensures { ShownSourceShowsTheSame }
{
    texts_keep_laws();
    f_writer::written_twice_is_written_once();
}

/// So `show` shows it again as the same bytes.
pub fn shown_source_is_kept()
    ensures { ShownSourceIsKept }
{
    texts_keep_laws();
    f_writer::written_twice_is_written_once();
}

// What a call does by its status tells when each status comes.
pub(crate) fn headline_is_exact()
    ensures { HeadlineIsExact }
{
    texts_keep_laws();
}
