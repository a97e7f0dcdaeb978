//! Reads and writes texts of modules.
//!
//! The table is the standard input, one order a line; in a text `$` is a newline:
//!
//! - `text TEXT` adds a line to the text that is held, and prints nothing; `clear` begins anew;
//! - `read` prints `read, and written the same`, or where the held text is refused;
//! - `cuts` reads each front of the held text, and prints whether each is refused at its own length;
//! - `changes` puts each of `0`, a space, a newline, `-` and `x` in the place of each byte of the held text, and prints how many texts there were,
//!   how many of them were those of a module, and the first for which a plain reader of this program answers otherwise;
//! - `behind TEXT` reads the held text with this text behind it, and prints where it is refused, counted from the end of the held text;
//! - `worked NAME` writes a worked module, reads it back and writes it again;
//! - `long LENGTH` and `old LENGTH` read so many bytes, all zero but for a line `dfimod 1` in front of the latter;
//! - `classes CLASS COUNT` writes a module with so many classes, and prints the length of its text.
//!
//! A line that is no order is told.
#![tactic(auto)]

mod bench;
mod changes;
mod long;
mod patterns;
mod plain;
mod worked;

use crate::bench::Bench;
use std::process::ExitCode;
use test_base::{ended, run_orders};

fn main(rt: HostRuntime) -> ExitCode {
    let mut bench = Bench {
        held: Vec::new(rt.alloc()),
    };
    ended(run_orders(&rt, &mut bench))
}
