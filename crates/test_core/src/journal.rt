use dfi_base::{DefNo, Memory, Name, Point, ReadNo};
use sqlite_items::Items;
use std::alloc::Global;
use tac_ir::{Answer, End, Entry, Journal, Op, Stop};

/// An entry of thread 1 in a journal that is written by hand: what it does, and at which index.
#[derive(Clone, Copy)]
pub enum Step {
    Write {
        at: u32,
        def: u16,
        word: u32,
        value: u32,
    },
    Out(i32),
    Alarm {
        read: u16,
        word: u32,
        found: u16,
    },
    Stops {
        at: u32,
        op: Op,
        stop: Stop,
    },
}

/// A journal that is written by hand, with its title.
#[derive(Clone, Copy)]
pub struct Written {
    pub title: &'static str,
    pub steps: &'static [Step],
    pub end: End,
}

impl Written {
    pub fn journal(&self, alloc: Global) -> Result<Journal, Memory> {
        let mut entries = Items::new(alloc);
        for step in self.steps {
            entries.push(entry_of(*step))?;
        }
        Ok(Journal {
            entries,
            end: self.end,
        })
    }
}

fn entry_of(step: Step) -> Entry {
    match step {
        Step::Write {
            at,
            def,
            word,
            value,
        } => {
            let def = DefNo(def);
            entry(at, Op::Write { def, word, value }, Answer::Unit)
        }
        Step::Out(value) => entry(9, Op::Out { value }, Answer::Unit),
        Step::Alarm { read, word, found } => {
            let read = ReadNo(read);
            entry(
                8,
                Op::Read { read, word },
                Answer::Stop(Stop::Alarm { found }),
            )
        }
        Step::Stops { at, op, stop } => entry(at, op, Answer::Stop(stop)),
    }
}

fn entry(at: u32, op: Op, answer: Answer) -> Entry {
    Entry {
        name: Name(1),
        point: Point { fun: 0, at },
        op,
        answer,
    }
}
