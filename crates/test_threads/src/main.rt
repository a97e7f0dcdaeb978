//! Runs the threads of small programs over words of 8 bits and over words of 32 bits, and measures deep shapes.
//!
//! Of each run it prints a title, over words of 32 bits the frame of `main` and the end of its stack, the events with the
//! threads whose they are, or the last one alone, how many there are, and what `main` returned. Calls that have no room and
//! what ends a run are left without an answer.
#![tactic(auto)]

mod byte_run;
mod bytes;
mod codes;
mod deep;
mod desk;
mod log;
mod program;
mod row;
mod rows;
mod stacks;
mod text;
mod word_run;

use crate::deep::Nesting;
use crate::rows::{bytes as byte_rows, long, words as word_rows};
use std::process::ExitCode;
use test_base::{Halt, ended, run_rows};

fn print_table<R: Print + AllocGlobal>(rt: &R) -> Result<(), Halt> {
    run_rows(rt, byte_rows::rows())?;
    run_rows(rt, word_rows::rows())?;
    run_rows(rt, long::rows())?;
    run_rows(rt, &[Nesting::Array, Nesting::Struct, Nesting::Pair])
}

fn main(rt: HostRuntime) -> ExitCode {
    ended(print_table(&rt))
}
