use crate::changes::{place, tell_changes, tell_cuts};
use crate::long::{tell_classes, tell_long};
use crate::worked::{tell_read, tell_worked};
use dfi_base::Memory;
use std::alloc::Global;
use test_base::{Halt, Orders};

/// What the lines so far have left: the text that is held.
#[derive(Drop)]
pub struct Bench {
    pub held: Vec<u8>,
}

/// Adds the bytes of the table's text.
fn push_text(bytes: &mut Vec<u8>, text: &str) -> Result<(), Memory> {
    for byte in text.as_bytes() {
        bytes.push(if *byte == b'$' { b'\n' } else { *byte })?;
    }
    Ok(())
}

/// A line that is no order.
fn tell_unknown(alloc: Global, line: &str) -> Result<Vec<u8>, Memory> {
    let mut text = String::new(alloc);
    writeln!(text, "unknown line: {line}")?;
    Ok(text.into_bytes())
}

/// Where the held text is refused with this one behind it, from the end of the held one.
fn tell_behind(alloc: Global, held: &[u8], rest: &str) -> Result<Vec<u8>, Memory> {
    let mut bytes = Vec::from_slice(alloc, held)?;
    push_text(&mut bytes, rest)?;
    let mut text = String::new(alloc);
    match place(alloc, &bytes)? {
        None => writeln!(text, "read")?,
        Some(at) if at >= held.len() as u64 => {
            writeln!(text, "refused at {}", at - held.len() as u64)?
        }
        Some(at) => writeln!(text, "refused at {at} of the held text")?,
    }
    Ok(text.into_bytes())
}

/// Reads so many bytes, zeros behind the front.
fn tell_length(alloc: Global, line: &str, front: &[u8], length: &str) -> Result<Vec<u8>, Memory> {
    match length.parse::<u32>() {
        Ok(length) => tell_long(alloc, front, length as usize),
        Err(_) => tell_unknown(alloc, line),
    }
}

/// Writes so many classes.
fn tell_many(alloc: Global, line: &str, rest: &str) -> Result<Vec<u8>, Memory> {
    let (class, count) = rest.split_once(' ').unwrap_or((rest, ""));
    match (class.parse::<u32>(), count.parse::<u32>()) {
        (Ok(class), Ok(count)) => tell_classes(alloc, class, count as usize),
        _ => tell_unknown(alloc, line),
    }
}

impl Bench {
    /// The orders that change the held text.
    fn hold(&mut self, alloc: Global, order: &str, rest: &str) -> Result<bool, Memory> {
        match order {
            "clear" => self.held = Vec::new(alloc),
            "text" => {
                push_text(&mut self.held, rest)?;
                self.held.push(b'\n')?;
            }
            _ => return Ok(false),
        }
        Ok(true)
    }
}

impl Orders for Bench {
    fn take_line(&mut self, alloc: Global, line: &str) -> Result<Vec<u8>, Halt> {
        let (order, rest) = line.split_once(' ').unwrap_or((line, ""));
        if self.hold(alloc, order, rest)? {
            return Ok(Vec::new(alloc));
        }
        let text = match order {
            "read" => tell_read(alloc, &self.held)?,
            "cuts" => tell_cuts(alloc, &self.held)?,
            "changes" => tell_changes(alloc, &self.held)?,
            "behind" => tell_behind(alloc, &self.held, rest)?,
            "worked" => tell_worked(alloc, rest)?,
            "long" => tell_length(alloc, line, b"", rest)?,
            "old" => tell_length(alloc, line, b"dfimod 1\n", rest)?,
            "classes" => tell_many(alloc, line, rest)?,
            _ => tell_unknown(alloc, line)?,
        };
        Ok(text)
    }
}
