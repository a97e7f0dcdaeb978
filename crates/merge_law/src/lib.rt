//! Guests over a shared memory make one run: what each keeps of its log, and the run of all logs together. `specs/` has the statements.
#![tactic(auto)]

mod journal;
mod law;
mod rest;

pub use journal::{journal_at_rest, journal_of};
pub use law::{guests_keep_their_logs, logs_are_one_run, runs_are_logs};
pub use rest::Rest;
