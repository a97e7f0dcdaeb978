//! Reads each source of a table, and tells its tokens, its tree, its canonical text, or its fault.
//!
//! The table is the standard input, one order a line, and each line is answered by one:
//!
//! - `tokens TEXT` lists the tokens of a source, each as `LINE:START..END KIND`, and `count N TEXT` counts them;
//! - `tree TEXT` shows the tree of a source, and `body TEXT` that of `int main() { TEXT }`;
//! - `lines TEXT` shows a tree with the line of each node, then the names by their numbers and the last line;
//! - `items N TEXT` counts the items of a source;
//! - `print TEXT` shows the canonical text of a source, and `again N TEXT` whether it has the same tokens; where that text is
//!   read to another, or not at all, the answer is `again` and that text or fault;
//! - an empty line and one that begins with `#` come back as they stand.
//!
//! In a text `$` is a newline, `\xHH` the byte of this number, in small letters, and what stands between two `@` stands N times.
//! A fault is one of the lexer, or `token T line L`, both of the first token with which no program goes on, or `deep line L`.
#![tactic(auto)]

mod decls;
mod exprs;
mod fault;
mod kinds;
mod marks;
mod names;
mod order;
mod part;
mod programs;
mod read;
mod source;
mod stmts;
mod texts;
mod tokens;
mod told;
mod words;
mod writer;

use crate::told::answer;
use std::alloc::Global;
use std::process::ExitCode;
use test_base::{Halt, Orders, ended, run_orders};

// A table of sources, whose lines leave nothing behind.
#[derive(Drop)]
struct Sources;

impl Orders for Sources {
    fn take_line(&mut self, alloc: Global, line: &str) -> Result<Vec<u8>, Halt> {
        let mut text = answer(alloc, line)?;
        text.push('\n')?;
        Ok(text.into_bytes())
    }
}

fn main(rt: HostRuntime) -> ExitCode {
    ended(run_orders(&rt, &mut Sources))
}
