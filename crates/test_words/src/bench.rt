use crate::jobs::{tell_none, tell_words};
use crate::lists::{tell_input, tell_names};
use dfi_base::Memory;
use gen_prog::generate;
use std::alloc::Global;
use test_base::{Halt, Orders};

/// The greatest number of a generated program.
const MOST: u32 = 200;

/// What the lines so far have left: nothing.
#[derive(Drop)]
pub struct Bench;

// A line that is no order.
fn tell_unknown(alloc: Global, line: &str) -> Result<Vec<u8>, Memory> {
    let mut text = String::new(alloc);
    writeln!(text, "unknown line: {line}")?;
    Ok(text.into_bytes())
}

// The generated program of this number, where there is one.
fn program_of(alloc: Global, number: &str) -> Result<Option<Vec<u8>>, Memory> {
    match number.parse::<u32>() {
        Ok(n) if 1 <= n && n <= MOST => Ok(Some(generate(alloc, n)?)),
        _ => Ok(None),
    }
}

fn tell_program(alloc: Global, line: &str, number: &str) -> Result<Vec<u8>, Memory> {
    match program_of(alloc, number)? {
        Some(text) => Ok(text),
        None => tell_unknown(alloc, line),
    }
}

fn tell_length(alloc: Global, line: &str, number: &str) -> Result<Vec<u8>, Memory> {
    let Some(program) = program_of(alloc, number)? else {
        return tell_unknown(alloc, line);
    };
    let mut text = String::new(alloc);
    writeln!(text, "length {}", program.len())?;
    Ok(text.into_bytes())
}

impl Orders for Bench {
    fn take_line(&mut self, alloc: Global, line: &str) -> Result<Vec<u8>, Halt> {
        let (order, rest) = line.split_once(' ').unwrap_or((line, ""));
        let text = match order {
            "words" => tell_words(alloc, rest)?,
            "none" => tell_none(alloc)?,
            "input" => tell_input(alloc, rest)?,
            "names" => tell_names(alloc, rest)?,
            "gen" => tell_program(alloc, line, rest)?,
            "length" => tell_length(alloc, line, rest)?,
            _ => tell_unknown(alloc, line)?,
        };
        Ok(text)
    }
}
