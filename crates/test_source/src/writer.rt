//! A tree as text.

use crate::exprs::row_of;
use crate::marks::Marks;
use crate::names::push_bytes;
use crate::part::Part;
use crate::programs::item_row;
use c_ast::{Ident, Item};
use dfi_base::{Line, Memory, Text};
use std::alloc::Global;

/// More parts than any tree of the table has.
const MOST_PARTS: u32 = 100_000;

/// What is written, and what comes next, last first.
#[derive(Drop)]
pub struct Writer<'a> {
    names: &'a [Text],
    marks: Marks,
    rest: Vec<Part<'a>>,
    text: String,
}

impl<'a> Writer<'a> {
    /// A writer of a tree with these names.
    pub fn new(alloc: Global, names: &'a [Text], marks: Marks) -> Writer<'a> {
        Writer {
            names,
            marks,
            rest: Vec::new(alloc),
            text: String::new(alloc),
        }
    }

    /// What was written.
    pub fn into_text(self) -> String {
        self.text
    }

    // These come before all that is to come yet.
    fn put(&mut self, row: &[Part<'a>]) -> Result<(), Memory> {
        for part in row.iter().rev() {
            self.rest.push(*part)?;
        }
        Ok(())
    }

    fn write_mark(&mut self, line: Line) -> Result<(), Memory> {
        if self.marks == Marks::Lines {
            write!(self.text, "{}:", line.0)?;
        }
        Ok(())
    }

    fn write_name(&mut self, name: Ident) -> Result<(), Memory> {
        self.write_mark(name.line)?;
        match self.names.get(name.name as usize) {
            Some(text) => push_bytes(&mut self.text, text.bytes()),
            None => push_bytes(&mut self.text, b"no name"),
        }
    }

    fn write_stars(&mut self, stars: u32) -> Result<(), Memory> {
        for _ in 0..stars {
            self.text.push('*')?;
        }
        Ok(())
    }

    fn write_number(&mut self, value: i32) -> Result<(), Memory> {
        write!(self.text, "{value}")?;
        Ok(())
    }

    fn write_part(&mut self, part: Part<'a>) -> Result<(), Memory> {
        match part {
            Part::Nothing => Ok(()),
            Part::Word(word) => push_bytes(&mut self.text, word.as_bytes()),
            Part::Mark(line) => self.write_mark(line),
            Part::Number(value) => self.write_number(value),
            Part::Name(name) => self.write_name(name),
            Part::Stars(stars) => self.write_stars(stars),
            _ => self.put(&row_of(part)),
        }
    }

    fn write_item(&mut self, item: &'a Item) -> Result<(), Memory> {
        self.put(&item_row(item))?;
        for _ in 0..MOST_PARTS {
            let Some(part) = self.rest.pop() else {
                return Ok(());
            };
            self.write_part(part)?;
        }
        push_bytes(&mut self.text, b" and more")
    }

    /// Writes a whole program.
    pub fn write_items(&mut self, items: &'a [Item]) -> Result<(), Memory> {
        for item in items {
            self.write_item(item)?;
        }
        Ok(())
    }
}
