//! Guests over words of 32 bits are the threads of a run: `specs/` says when a life stands where the path of its entries stands, and each
//! function's contract is a law of it.
#![tactic(auto)]

mod law;
mod region_law;
mod threads_law;

pub use law::{
    answered_goes_on, branch_begins, joined_goes_on, root_begins, stacks_are_answers,
    wants_are_the_threads,
};
pub use region_law::one_innermost_region;
pub use threads_law::{
    fed_tree_goes_on, forked_tree_goes_on, main_has_its_value, main_returns_its_value,
    runs_what_is_next, same_end, same_threads_run, stopped_run_has_not_ended, tree_begins,
};
