//! Solves rules over rows of bits, and joins, compares and lists rows.
//!
//! The table is the standard input, one order a line:
//!
//! - `rows COUNT WIDTH` begins a table of so many rows of so many bits, with no masks and no rules;
//! - `put ROW MEMBER` and `clear ROW MEMBER` change a bit of the table, and `mask MEMBER ..` adds a mask;
//! - `has ROW MEMBER`, `flow FROM TO`, `keep FROM MASK TO`, `shift FROM MASK BY TO`, `meet TO FIRST ..`, `guard TEST MEMBER FROM TO`,
//!   `store TARGETS FROM` and `load SOURCES TO` add a rule;
//! - `solve` puts the least table in the place of the table, and `open` prints the first rule that is open;
//! - `show` prints the rows that have members;
//! - `or ROW OTHER`, `under ROW OTHER MASK`, `and ROW OTHER` and `copy ROW OTHER` change a row by another, and `within ROW OTHER`,
//!   `within ROW OTHER MASK`, `get ROW MEMBER` and `next ROW FROM` ask about one;
//! - `chain N` solves a chain of N rules in the worst order, `wide ROWS WIDTH RULES` so many rules over so many rows, both above an empty
//!   table, and each prints how many members the first row then has;
//! - `text WORD` prints the bytes of a text of this word.
//!
//! A line that is no order is told.
#![tactic(auto)]

mod bench;
mod lines;
mod orders;
mod rows;

use crate::bench::Bench;
use std::process::ExitCode;
use test_base::{ended, run_orders};

fn main(rt: HostRuntime) -> ExitCode {
    let mut bench = Bench::new(rt.alloc());
    ended(run_orders(&rt, &mut bench))
}
