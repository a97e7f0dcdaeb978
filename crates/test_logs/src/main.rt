//! Takes runs of small modules apart into the logs of their threads, merges these logs into that of thread 1, and compares its journal
//! with the run.
//!
//! The table is the standard input, one row a line: `SAMPLE BUDGET NAME ..` is the run of a sample along these names. Behind a word `|`
//! stand the names of entries that drew their tickets behind the run: they are those of the run along the names but the last, and
//! then these.
//!
//! A line that is no row is told, and so is one whose names are refused.
#![tactic(auto)]

mod guests;
mod play;
mod row;
mod tickets;

use crate::play::Rows;
use std::process::ExitCode;
use test_base::{ended, run_orders};

fn main(rt: HostRuntime) -> ExitCode {
    ended(run_orders(&rt, &mut Rows))
}
