//! The running machine of the typed assembly language. An accepted program is loaded once, without its types, and is
//! then run a number of steps at a time.
#![tactic(auto)]

mod code;
mod collecting;
mod executing;
mod finding;
mod heap;
mod laws;
mod loading;
mod machine;
mod pairs;
mod places;
mod placing;
mod resuming;
mod running;
mod starts;
mod word;

pub use laws::{
    first_counts_are_times, first_runs_tell, places_are_read_back, runs_answer_exactly,
    seldom_runs_are_covered, steps_allocate_what_they_ask, the_rest_is_covered,
};
pub use loading::load;
pub use machine::{Counted, Machine, Ran};
