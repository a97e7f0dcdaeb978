use crate::row::Shown;
use dfi_base::{Memory, Name};
use std::fmt::Debug;
use tac_thread::Want;

/// A text to which the events of a run are added.
#[derive(Drop)]
pub struct Log<V> {
    text: String,
    shown: Shown,
    count: u64,
    last: Option<(Name, Want<V>)>,
}

impl<V: Copy + Debug> Log<V> {
    /// A log with no events yet, behind this text.
    pub fn new(text: String, shown: Shown) -> Log<V> {
        Log {
            text,
            shown,
            count: 0,
            last: None,
        }
    }

    /// Takes the event of a thread.
    pub fn take(&mut self, name: Name, want: Want<V>) -> Result<(), Memory> {
        if self.shown == Shown::All {
            push_event(&mut self.text, name, want)?;
        }
        self.count = self.count.saturating_add(1);
        self.last = Some((name, want));
        Ok(())
    }

    /// The text with the events that are shown, how many there are, and main's value.
    pub fn into_text(self, done: Option<V>) -> Result<String, Memory> {
        let Log {
            mut text,
            shown,
            count,
            last,
        } = self;
        if shown == Shown::Last {
            push_last(&mut text, last)?;
        }
        writeln!(text, "events {count}")?;
        push_done(&mut text, done)?;
        Ok(text)
    }
}

fn push_event<V: Copy + Debug>(text: &mut String, name: Name, want: Want<V>) -> Result<(), Memory> {
    writeln!(text, "thread {}: {want:?}", name.0)?;
    Ok(())
}

fn push_last<V: Copy + Debug>(
    text: &mut String,
    last: Option<(Name, Want<V>)>,
) -> Result<(), Memory> {
    match last {
        None => Ok(()),
        Some((name, want)) => push_event(text, name, want),
    }
}

fn push_done<V: Copy + Debug>(text: &mut String, done: Option<V>) -> Result<(), Memory> {
    match done {
        None => writeln!(text, "main has not returned")?,
        Some(value) => writeln!(text, "main returned {value:?}")?,
    }
    Ok(())
}
