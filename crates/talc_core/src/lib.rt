//! The top call of the compiler: what the words of the command line ask for, with its answer and its lines.
#![tactic(auto)]

mod assembly;
mod commands;
mod fault;
mod finding;
mod laws;
mod lines;
mod outside;
mod refusal;
mod reply;
mod report;
mod source;
mod status;
mod top;

pub use commands::{
    check_text, compile_text, compile_text_within, cost_text, eval_text, explain_text,
    form_of_text, listed_text, listing_text, native_listing_text, native_text, run_text,
    trace_text, type_of_text, types_text, upgrade_text,
};
pub use f_seeds::source_of;
pub use fault::Fault;
pub use laws::{
    bounded_has_few_registers, bounded_is_kept, bounded_is_taken, bounded_means_the_same,
    bounded_shows_the_same, checked_is_explained, compiled_evaluations_run, compiled_goes_on,
    compiled_is_covered, compiled_is_kept, compiled_is_taken, compiled_means_the_same,
    compiled_never_sticks, compiled_runs_are_evaluations, compiled_runs_are_shown,
    compiled_shows_the_same, compiled_values_run, cost_ends_as_run, counts_are_times,
    entered_is_entries, fields_are_made, kinds_are_steps, lines_show_kinds, mallocs_are_tuples,
    native_listing_shows_the_file, native_runs_the_same, native_shows_the_same,
    no_fault_where_taken, one_bounded_text, one_compiled_text, one_cost, one_explanation,
    one_fault, one_fault_listed, one_form, one_line, one_listing, one_native_listing, one_trace,
    one_types_page, one_upgrade, one_written_text, page_is_of_executed, rows_add_up,
    shown_assembly_is_compiled, shown_source_is_kept, shown_source_is_taken,
    shown_source_is_the_same, shown_source_shows_the_same, taken_is_explained, taken_or_fault,
    trace_ends_as_run, types_end_as_typeof, upgraded_is_kept, upgraded_is_taken,
    upgraded_is_the_same, upgraded_never_sticks, upgraded_runs_the_same, upgraded_traces_the_same,
};
pub use lines::fault_line;
pub use refusal::Refusal;
pub use reply::{Ending, Reply, TextListing};
pub use status::Status;
pub use top::talc;
