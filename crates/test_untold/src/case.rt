use crate::closed::{ClosedPad, ClosedShelf};
use crate::rows::FILES;
use dfi_base::Memory;
use dfi_io::{Pad, Shelf};
use dfi_top::{Ended, front};
use std::alloc::Global;
use test_base::{Halt, Row};

/// More bytes than any text of the table has.
const ROOM: u64 = 4096;

/// A fault of a device.
pub enum Planned {
    Nothing,
    /// The load of this number fails.
    Load(u64),
    /// The first write fails after so many bytes.
    Write(u64),
}

/// A call: its words, and the fault that is planned.
pub struct Case {
    pub title: &'static str,
    pub words: &'static [&'static str],
    pub planned: Planned,
}

// The words of a call.
fn words_of(alloc: Global, case: &Case) -> Result<Vec<String>, Memory> {
    let mut words = Vec::new(alloc);
    for word in case.words {
        words.push(String::from_str(alloc, word)?)?;
    }
    Ok(words)
}

// The library of a case.
fn library_of(alloc: Global, case: &Case) -> Result<ClosedShelf, Memory> {
    let mut shelf = Shelf::new(alloc);
    for (name, text) in &FILES {
        shelf.put(name.as_bytes(), text.as_bytes())?;
    }
    if let Planned::Load(number) = case.planned {
        shelf.fail_at(number)?;
    }
    Ok(ClosedShelf { shelf })
}

// The sink of a case.
fn sink_of(alloc: Global, case: &Case) -> Result<ClosedPad, Memory> {
    let mut pad = Pad::new(alloc);
    pad.reserve(ROOM)?;
    if let Planned::Write(after) = case.planned {
        pad.fail_at(0, after)?;
    }
    Ok(ClosedPad { pad })
}

// The title, what was written, and how the call ended.
fn tell(alloc: Global, case: &Case, written: &[u8], ended: &Ended) -> Result<Vec<u8>, Memory> {
    let mut text = String::new(alloc);
    let entries = ended.journal.entries.len();
    writeln!(text, "case {}", case.title)?;
    let mut told = text.into_bytes();
    told.extend_from_slice(written)?;
    let mut last = String::new(alloc);
    writeln!(last, "status {}, entries {entries}", ended.status)?;
    told.extend_from_slice(last.as_bytes())?;
    Ok(told)
}

impl Row for Case {
    fn text(&self, alloc: Global) -> Result<Vec<u8>, Halt> {
        let words = words_of(alloc, self)?;
        let mut library = library_of(alloc, self)?;
        let mut sink = sink_of(alloc, self)?;
        let ended = front(alloc, &words, &mut library, &mut sink);
        Ok(tell(alloc, self, sink.pad.bytes(), &ended)?)
    }
}
