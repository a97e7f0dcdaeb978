//! Prints of tables of small programs whether they are closed under the rules of the analysis, and where they are open.
//!
//! A table of points is whole or has one member less. A table of reach is given by the number of the point from which on each fact
//! reaches, with one fact less at one point, and says also which definitions a read may find.
#![tactic(auto)]

mod answers;
mod cases;
mod codes;
mod program;
mod reach;
mod tables;

use crate::cases::CASES;
use std::process::ExitCode;
use test_base::{ended, run_rows};

fn main(rt: HostRuntime) -> ExitCode {
    ended(run_rows(&rt, &CASES))
}
