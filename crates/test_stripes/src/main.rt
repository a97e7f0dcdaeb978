//! Shared memories under locks. Of each row it prints a title, what each call was answered, and the tickets of the log at the end.
#![tactic(auto)]

mod orders;
mod row;
mod rows;
mod scene;
mod waits;

use crate::row::Row;
use crate::rows::{rows_of_desks, rows_of_words};
use crate::scene::text_of;
use crate::waits::text_of_wait;
use std::io;
use std::io::Write;
use std::process::ExitCode;
use std::sync::Wait;
use std::thread::Threads;
use test_base::{Halt, ended};

fn print_row<R: Print + AllocGlobal>(rt: &R, row: &Row) -> Result<(), Halt> {
    let text = text_of(rt.alloc(), row)?;
    io::writer(rt).write_all(text.as_bytes())?;
    Ok(())
}

fn print_rows<R: Print + AllocGlobal>(rt: &R, rows: &[Row]) -> Result<(), Halt> {
    for row in rows {
        print_row(rt, row)?;
    }
    Ok(())
}

fn print_wait<R: Print + AllocGlobal + Threads + Wait + Sync>(rt: &R) -> Result<(), Halt> {
    let text = text_of_wait(rt, rt.alloc())?;
    io::writer(rt).write_all(text.as_bytes())?;
    Ok(())
}

fn print_all<R: Print + AllocGlobal + Threads + Wait + Sync>(rt: &R) -> Result<(), Halt> {
    print_rows(rt, rows_of_words())?;
    print_rows(rt, rows_of_desks())?;
    print_wait(rt)
}

fn main(rt: HostRuntime) -> ExitCode {
    ended(print_all(&rt))
}
