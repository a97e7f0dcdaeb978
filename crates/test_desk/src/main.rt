//! Takes and gives back blocks of a heap, and reads the numbers of an input.
//!
//! The table is the standard input, one order a line:
//!
//! - `small NUMBER ..` and `large NUMBER ..` begin a desk of this memory, with these numbers to read;
//! - `take COUNT WORDS` prints where the block stands, or `no room`;
//! - `give WORD` prints `given` or `not live`;
//! - `int` and `left` print the next number, and how many remain;
//! - `fill COUNT WORDS` takes so many blocks of so many words, and prints where the last one stands;
//! - `pairs COUNT WORD WORDS` gives back the block at this word and takes one of so many words, again and again, and prints how many of these
//!   blocks stood at the word.
//!
//! A line that is no order is told.
#![tactic(auto)]

mod order;
mod table;

use crate::table::Table;
use std::process::ExitCode;
use test_base::{ended, run_orders};

fn main(rt: HostRuntime) -> ExitCode {
    let mut table = Table { desk: None };
    ended(run_orders(&rt, &mut table))
}
