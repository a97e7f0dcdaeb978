use std::cell::Cell;
use std::fmt::Display;
use std::io;

/// An output that takes one byte at a time and no more than four, which it keeps as a number.
#[derive(Drop)]
pub struct Narrow {
    pub written: Cell<u64>,
}

impl Print for Narrow {
    fn print<D: Display + Drop>(&self, _value: D) -> io::Result<()> {
        Ok(())
    }

    fn println<D: Display + Drop>(&self, _value: D) -> io::Result<()> {
        Ok(())
    }

    fn write_all(&self, _bytes: &[u8]) -> io::Result<()> {
        Ok(())
    }

    fn write_some(&self, bytes: &[u8]) -> io::Result<usize> {
        let written = self.written.get();
        match bytes.first() {
            Some(byte) if written < 1 << 24 => {
                self.written
                    .set(written.wrapping_mul(256) | u64::from(*byte));
                Ok(1)
            }
            _ => Ok(0),
        }
    }
}
