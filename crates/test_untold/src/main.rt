//! Runs the top call over a library and a sink in memory that tell nothing, on each row of a table, and prints what was written, the
//! status and how many entries the journal has.
#![tactic(auto)]

mod case;
mod closed;
mod rows;

use crate::rows::rows;
use std::process::ExitCode;
use test_base::{ended, run_rows};

fn main(rt: HostRuntime) -> ExitCode {
    ended(run_rows(&rt, rows()))
}
