//! Reads without a check stay lawful in each core run, where an access before them covers them and no other thread can be at work there.
#![tactic(auto)]

mod law;

pub use law::covered_runs_are_lawful;
