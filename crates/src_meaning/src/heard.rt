//! What a thread hears, and what it makes of it.

ghost use Rattle.std.specs.Prelude.{◌≡◌, ◌≤◌, length};
ghost use Rattle.src_law.specs.Acts.{a_value, nothing};
ghost use Rattle.src_law.specs.tools.Heard as spec;
ghost use Rattle.src_law.specs.tools.Reader as reader;
ghost use Rattle.src_law.specs.declared.heard.End.TheVariants.{Done as done};
ghost use Rattle.src_meaning.specs.tools.Branches.{Branches};
ghost use Rattle.src_meaning.specs.tools.Follows.{Follows};

use obj_mem::{Event, Maker, SrcAnswer, Value};
use src_law::{End, Heard};
use std::alloc::{AllocError, AllocFailed};
use std::marker::Model;

/// Why a thread goes no further.
#[derive(Clone, Copy, Debug)]
pub enum Pause {
    Memory,
    /// This event is next.
    Wants(Event),
    /// Nothing follows.
    Over,
    /// A branch has come to its end.
    Ended,
    /// No thread hears this.
    Off,
}

impl From<AllocError> for Pause {
    ghost use Rattle.src_meaning.specs.declared.heard.Pause.{Pause};

    ghost from_gives = { λ _ p. p ≡ Pause.Memory };

    fn from(_: AllocError) -> Pause {
        Pause::Memory
    }
}

impl<T: Drop> From<AllocFailed<T>> for Pause {
    ghost use Rattle.src_meaning.specs.declared.heard.Pause.{Pause};

    ghost from_gives = { λ _ p. p ≡ Pause.Memory };

    fn from(_: AllocFailed<T>) -> Pause {
        Pause::Memory
    }
}

/// What is still to be heard.
#[derive(Drop)]
pub struct Hearing<'a> {
    rest: &'a [Heard],
}

impl<'a> Model for Hearing<'a> {
    ghost use Rattle.std.specs.Prelude.{List};
    ghost use Rattle.src_law.specs.declared.heard.Heard.{Heard};

    ghost Value = { List Heard };

    ghost view = { λ h. h.rest.now };
}

impl<'a> Hearing<'a> {
    pub fn new(rest: &'a [Heard]) -> Hearing<'a>
        ensures { result ≡ rest.now }
    {
        Hearing { rest }
    }

    /// One event, and its answer.
    pub fn asks(&mut self, event: Event) -> Result<SrcAnswer, Pause>
        ensures { Follows (spec.asks event self.old) result self.new }
    {
        match self.rest {
            [] => Err(Pause::Wants(event)),
            [Heard::Answer(answer), rest @ ..] => {
                self.rest = rest;
                Ok(*answer)
            }
            [Heard::Branch(_), ..] => Err(Pause::Off),
        }
    }

    /// An event whose answer is a value.
    pub fn value(&mut self, event: Event) -> Result<Value, Pause>
        ensures { Follows (spec.bind (spec.asks event self.old) (spec.result_of a_value)) result self.new }
    {
        match self.asks(event)? {
            SrcAnswer::Value(value) => Ok(value),
            _ => Err(Pause::Off),
        }
    }

    /// An event whose answer says nothing.
    pub fn unit(&mut self, event: Event) -> Result<(), Pause>
        ensures { Follows (spec.bind (spec.asks event self.old) spec.unit_of) result self.new }
    {
        match self.asks(event)? {
            SrcAnswer::Unit => Ok(()),
            _ => Err(Pause::Off),
        }
    }

    /// The same, as a part hears it.
    pub fn tells(&mut self, event: Event) -> Result<(), Pause>
        ensures { Follows (spec.bind (spec.asks event self.old) (spec.result_of nothing)) result self.new }
    {
        match self.asks(event)? {
            SrcAnswer::Unit => Ok(()),
            _ => Err(Pause::Off),
        }
    }

    /// An event that makes a frame.
    pub fn frame(&mut self, event: Event) -> Result<Maker, Pause>
        ensures { Follows (spec.bind (spec.asks event self.old) spec.frame_of) result self.new }
    {
        match self.asks(event)? {
            SrcAnswer::Frame(maker) => Ok(maker),
            _ => Err(Pause::Off),
        }
    }

    /// An event behind which nothing follows.
    pub fn last<T>(&mut self, event: Event) -> Result<T, Pause>
        ensures { Follows (spec.bind (spec.asks event self.old) spec.nothing_more) result self.new }
    {
        match self.asks(event)? {
            SrcAnswer::Unit if self.rest.is_empty() => Err(Pause::Over),
            _ => Err(Pause::Off),
        }
    }

    /// Which branch of the fork before it this is, if it is one.
    pub fn branch(&mut self) -> Option<u32>
        ensures { Branches self.old result self.new }
    {
        match self.rest {
            [Heard::Branch(i), rest @ ..] => {
                self.rest = rest;
                Some(*i)
            }
            _ => None,
        }
    }

    /// The end of a branch: nothing more is heard.
    pub fn end(&self) -> Result<End, Pause>
        ensures { Follows (reader.to_end done self.now) result self.now }
    {
        if self.rest.is_empty() {
            Err(Pause::Ended)
        } else {
            Err(Pause::Off)
        }
    }
}
