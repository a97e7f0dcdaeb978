//! Reads words, lists of numbers and generated programs on each line of a table.
//!
//! The table is the standard input, one order a line:
//!
//! - `words WORD,WORD,..` prints the job that these words ask for, or `refused`; a word may be empty, and `none` is no words at all;
//! - `input BYTES` and `names BYTES` print the numbers of a list, or at which byte it is refused; `$` is a newline, `~` a tab, `^` a
//!   carriage return and `#` a vertical tab;
//! - `gen N` prints the generated program of N functions, and `length N` how many bytes it has.
//!
//! A line that is no order is told.
#![tactic(auto)]

mod bench;
mod jobs;
mod lists;

use crate::bench::Bench;
use std::process::ExitCode;
use test_base::{ended, run_orders};

fn main(rt: HostRuntime) -> ExitCode {
    ended(run_orders(&rt, &mut Bench))
}
