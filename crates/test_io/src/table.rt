use crate::files::Libraries;
use crate::narrow::Narrow;
use crate::order::{Order, order_of};
use crate::writes::Sinks;
use dfi_io::{Console, Folder, Pad, Shelf};
use std::alloc::Global;
use std::cell::Cell;
use std::rt::Files;
use test_base::{Halt, Orders};

/// The devices that the lines so far have left.
#[derive(Drop)]
pub struct Table<R: Files + Drop, P: Print + Drop> {
    libraries: Libraries<R>,
    sinks: Sinks<P>,
}

impl<R: Files + Drop, P: Print + Drop> Table<R, P> {
    /// Devices that hold nothing.
    pub fn new(alloc: Global, files: R, output: P) -> Table<R, P> {
        Table {
            libraries: Libraries {
                shelf: Shelf::new(alloc),
                folder: Folder::new(files),
            },
            sinks: Sinks {
                pad: Pad::new(alloc),
                narrow: Narrow {
                    written: Cell::new(0),
                },
                console: Console::new(output),
            },
        }
    }
}

impl<R: Files + Drop, P: Print + Drop> Orders for Table<R, P> {
    fn take_line(&mut self, alloc: Global, line: &str) -> Result<Vec<u8>, Halt> {
        let answer = match order_of(alloc, line)? {
            Order::Files(order) => self.libraries.answer(alloc, order)?,
            Order::Writes(order) => self.sinks.answer(alloc, order)?,
            Order::Unknown => format!(in alloc; "no order")?,
        };
        let text = format!(in alloc; "{line}: {answer}\n")?;
        Ok(text.into_bytes())
    }
}
