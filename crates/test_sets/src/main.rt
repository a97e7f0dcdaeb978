//! Prints of pairs of points of small programs whether they may run side by side.
#![tactic(auto)]

mod cases;
mod codes;

use crate::cases::CASES;
use std::process::ExitCode;
use test_base::{ended, run_rows};

fn main(rt: HostRuntime) -> ExitCode {
    ended(run_rows(&rt, &CASES))
}
