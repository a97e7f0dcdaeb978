//! Loads and writes by each device: files in memory and real ones, a pad, the standard output, and an output that takes one byte at a time.
//!
//! The table is the standard input, one order a line:
//!
//! - `shelf` begins an empty shelf, `put NAME BYTES` puts a file there, `plan CALL` plans a fault of one of its loads;
//! - `load NAME LIMIT` loads from the shelf and prints the bytes, `file NAME LIMIT` loads a real file and prints how many bytes it has and
//!   how many of them are an `x`, `byte NUMBER LIMIT` the same for the file whose name is this byte;
//! - `pad ROOM` begins a pad with room for so many bytes, `stop CALL AFTER` plans a fault of one of its writes;
//! - `write BYTES` writes to the pad and prints all that it holds;
//! - `print BYTES` writes to the standard output, `narrow BYTES` to an output that takes no more than four bytes, and prints these as a number.
//!
//! A line that is no order is told.
#![tactic(auto)]

mod files;
mod narrow;
mod order;
mod table;
mod writes;

use crate::table::Table;
use std::process::ExitCode;
use test_base::{ended, run_orders};

fn main(rt: HostRuntime) -> ExitCode {
    let mut table = Table::new(rt.alloc(), &rt, &rt);
    ended(run_orders(&rt, &mut table))
}
