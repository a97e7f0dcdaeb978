use crate::halt::Halt;
use std::alloc::Global;
use std::io;
use std::io::Write;
use std::process::ExitCode;

const DEVICE_FAILED: u8 = 1;

const NO_MEMORY: u8 = 8;

const LONG_ROW: u8 = 9;

/// A row of a table that stands in code.
pub trait Row {
    /// The title of the row, and what came of running it.
    fn text(&self, alloc: Global) -> Result<Vec<u8>, Halt>;
}

/// A table that comes as lines, with what the lines so far have left behind.
pub trait Orders {
    /// What the line answers.
    fn take_line(&mut self, alloc: Global, line: &str) -> Result<Vec<u8>, Halt>;
}

/// Prints what comes of each row.
pub fn run_rows<R: Print + AllocGlobal, T: Row>(rt: &R, rows: &[T]) -> Result<(), Halt> {
    for row in rows {
        let text = row.text(rt.alloc())?;
        io::writer(rt).write_all(&text)?;
    }
    Ok(())
}

/// Prints what each line of the standard input answers.
pub fn run_orders<R: Input + Print + AllocGlobal, T: Orders>(
    rt: &R,
    orders: &mut T,
) -> Result<(), Halt> {
    for line in rt.lines(rt.alloc()) {
        let text = orders.take_line(rt.alloc(), line?.as_str())?;
        io::writer(rt).write_all(&text)?;
    }
    Ok(())
}

/// The exit status of a test program.
pub fn ended(outcome: Result<(), Halt>) -> ExitCode {
    match outcome {
        Ok(()) => ExitCode::SUCCESS,
        Err(Halt::Device) => ExitCode::from(DEVICE_FAILED),
        Err(Halt::Memory) => ExitCode::from(NO_MEMORY),
        Err(Halt::Long) => ExitCode::from(LONG_ROW),
    }
}
