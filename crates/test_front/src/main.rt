//! Runs the top call on each case of a table.
//!
//! The table is the standard input, one order a line:
//!
//! - `case TITLE` begins a case with no files and no planned faults, and is printed as it stands;
//! - `file NAME` begins a file, whose lines follow up to a line `end`; among them `\repeat N TEXT` is the text N times and
//!   `\bytes N ..` the bytes of these numbers, both with no newline;
//! - `fail load K` and `fail write K after N` plan faults of the devices;
//! - `words WORD ..` calls with these words, and prints the text that comes, the status and how many entries the journal has;
//! - `length WORD ..` does the same with the length of the text in place of the text;
//! - an empty line is for the eye.
//!
//! Words end at each single space, so two spaces have an empty word between them. The numbers of loads go on through the calls
//! of one case, and each call has a fresh sink. A line that is no order is told.
#![tactic(auto)]

mod bench;
mod file;
mod told;

use crate::bench::Bench;
use std::process::ExitCode;
use test_base::{ended, run_orders};

fn main(rt: HostRuntime) -> ExitCode {
    let mut bench = Bench::new(rt.alloc());
    ended(run_orders(&rt, &mut bench))
}
