//! Runs the core on small modules. Of each run it prints a title, how many entries the journal has, the last of them, and the
//! text of the run, or else the number of the name that is refused.
#![tactic(auto)]

mod journal;
mod row;
mod rows;
mod sample;
mod text;
mod written;

use crate::rows::{forks, limits, orders, overruns, stores, traps, written as by_hand};
use std::process::ExitCode;
use test_base::{Halt, ended, run_rows};

fn print_table<R: Print + AllocGlobal>(rt: &R) -> Result<(), Halt> {
    run_rows(rt, overruns::rows())?;
    run_rows(rt, orders::rows())?;
    run_rows(rt, forks::rows())?;
    run_rows(rt, traps::rows())?;
    run_rows(rt, limits::rows())?;
    run_rows(rt, stores::rows())?;
    run_rows(rt, by_hand::rows())
}

fn main(rt: HostRuntime) -> ExitCode {
    ended(print_table(&rt))
}
