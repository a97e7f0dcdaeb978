use crate::narrow::Narrow;
use crate::order::WriteOrder;
use dfi_io::{Console, Pad, Sink, SinkFault};
use std::alloc::Global;
use test_base::Halt;

/// A pad, a narrow output, and the standard output.
#[derive(Drop)]
pub struct Sinks<P: Print + Drop> {
    pub pad: Pad,
    pub narrow: Narrow,
    pub console: Console<P>,
}

impl<P: Print + Drop> Sinks<P> {
    /// What the order answers.
    pub fn answer(&mut self, alloc: Global, order: WriteOrder) -> Result<String, Halt> {
        match order {
            WriteOrder::Begin(room) => {
                self.pad = Pad::new(alloc);
                self.pad.reserve(room)?;
                Ok(format!(in alloc; "empty")?)
            }
            WriteOrder::Stop(call, after) => {
                self.pad.fail_at(call, after)?;
                Ok(format!(in alloc; "planned")?)
            }
            WriteOrder::Write(bytes) => {
                let answer = answer_text(self.pad.write(bytes.as_bytes()));
                let held = String::from_utf8_lossy(alloc, self.pad.bytes())?;
                Ok(format!(in alloc; "{answer}, holds \"{held}\"")?)
            }
            WriteOrder::Print(bytes) => {
                let answer = answer_text(self.console.write(bytes.as_bytes()));
                Ok(format!(in alloc; "{answer}")?)
            }
            WriteOrder::Narrow(bytes) => {
                let answer = answer_text(Console::new(&self.narrow).write(bytes.as_bytes()));
                let written = self.narrow.written.get();
                Ok(format!(in alloc; "{answer}, holds {written:#x}")?)
            }
        }
    }
}

fn answer_text(answer: Result<(), SinkFault>) -> &'static str {
    match answer {
        Ok(()) => "written",
        Err(SinkFault) => "failed",
    }
}
