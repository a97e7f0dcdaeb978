use crate::file::OpenFile;
use crate::told::{Shown, tell_call, tell_unknown};
use dfi_base::Memory;
use dfi_io::{Pad, Shelf};
use dfi_top::front;
use std::alloc::Global;
use test_base::{Halt, Orders};

/// More bytes than any text of the table has.
const ROOM: u64 = 1_048_576;

/// A case while its lines are read.
#[derive(Drop)]
pub struct Bench {
    alloc: Global,
    shelf: Shelf,
    pad: Pad,
    file: Option<OpenFile>,
}

// The words of a call.
fn words_of(alloc: Global, line: &str) -> Result<Vec<String>, Memory> {
    let mut words = Vec::new(alloc);
    if line.is_empty() {
        return Ok(words);
    }
    for word in line.split(' ') {
        words.push(String::from_str(alloc, word)?)?;
    }
    Ok(words)
}

impl Bench {
    /// A case with no files and no planned faults.
    pub fn new(alloc: Global) -> Bench {
        Bench {
            alloc,
            shelf: Shelf::new(alloc),
            pad: Pad::new(alloc),
            file: None,
        }
    }

    // What a line of the table prints.
    fn answer(&mut self, line: &str) -> Result<Vec<u8>, Memory> {
        let Some(file) = self.file.take() else {
            return self.take_order(line);
        };
        if line == "end" {
            self.shelf.put(file.name.as_bytes(), &file.bytes)?;
            return Ok(Vec::new(self.alloc));
        }
        self.take_text(file, line)
    }

    // Takes a line of a file.
    fn take_text(&mut self, mut file: OpenFile, line: &str) -> Result<Vec<u8>, Memory> {
        let known = file.take_line(line)?;
        self.file = Some(file);
        self.tell_if_unknown(known, line)
    }

    fn tell_if_unknown(&self, known: bool, line: &str) -> Result<Vec<u8>, Memory> {
        if known {
            return Ok(Vec::new(self.alloc));
        }
        tell_unknown(self.alloc, line)
    }

    fn take_order(&mut self, line: &str) -> Result<Vec<u8>, Memory> {
        let (order, rest) = line.split_once(' ').unwrap_or((line, ""));
        match order {
            "case" => self.begin_case(line),
            "words" => self.call(rest, Shown::Text),
            "length" => self.call(rest, Shown::Length),
            "file" => {
                self.file = Some(OpenFile::new(self.alloc, rest)?);
                Ok(Vec::new(self.alloc))
            }
            "fail" => {
                let known = self.plan(rest)?;
                self.tell_if_unknown(known, line)
            }
            _ => self.tell_if_unknown(line.is_empty(), line),
        }
    }

    fn begin_case(&mut self, line: &str) -> Result<Vec<u8>, Memory> {
        self.shelf = Shelf::new(self.alloc);
        self.pad = Pad::new(self.alloc);
        let mut text = String::new(self.alloc);
        writeln!(text, "{line}")?;
        Ok(text.into_bytes())
    }

    // Plans a fault of a device, and says whether it knows which.
    fn plan(&mut self, rest: &str) -> Result<bool, Memory> {
        let words: Vec<&str> = rest.split(' ').collect(self.alloc)?;
        match *words {
            ["load", number] => self.plan_load(number),
            ["write", number, "after", count] => self.plan_write(number, count),
            _ => Ok(false),
        }
    }

    fn plan_load(&mut self, number: &str) -> Result<bool, Memory> {
        let Ok(number) = number.parse::<u64>() else {
            return Ok(false);
        };
        self.shelf.fail_at(number)?;
        Ok(true)
    }

    fn plan_write(&mut self, number: &str, count: &str) -> Result<bool, Memory> {
        let (Ok(number), Ok(count)) = (number.parse::<u64>(), count.parse::<u64>()) else {
            return Ok(false);
        };
        self.pad.fail_at(number, count)?;
        Ok(true)
    }

    // Runs the top call on these words.
    fn call(&mut self, rest: &str, shown: Shown) -> Result<Vec<u8>, Memory> {
        let words = words_of(self.alloc, rest)?;
        self.pad.reserve(ROOM)?;
        let ended = front(self.alloc, &words, &mut self.shelf, &mut self.pad);
        let text = tell_call(self.alloc, self.pad.bytes(), shown, &ended)?;
        self.pad = Pad::new(self.alloc);
        Ok(text)
    }
}

impl Orders for Bench {
    fn take_line(&mut self, _: Global, line: &str) -> Result<Vec<u8>, Halt> {
        Ok(self.answer(line)?)
    }
}
