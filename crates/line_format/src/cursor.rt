//! The bytes that are not read yet.

ghost use Rattle.std.specs.Prelude.{◌≡◌, ◌<◌, ◌^◌, length, drop, if◌then◌else◌};
ghost use Rattle.line_format.specs.tools.Format.{pop};
ghost use Rattle.line_format.specs.tools.Words.{comes};

use std::alloc::{AllocError, AllocFailed};
use std::marker::Model;

/// The number of bytes from the faulty one on.
#[derive(Debug, Drop)]
pub enum Failure {
    At(u64),
    Memory,
}

impl From<AllocError> for Failure {
    ghost use Rattle.line_format.specs.declared.cursor.Failure.{Failure};

    ghost from_gives = { λ _ e. e ≡ Failure.Memory };

    fn from(_: AllocError) -> Failure {
        Failure::Memory
    }
}

impl<T: Drop> From<AllocFailed<T>> for Failure {
    ghost use Rattle.line_format.specs.declared.cursor.Failure.{Failure};

    ghost from_gives = { λ _ e. e ≡ Failure.Memory };

    fn from(_: AllocFailed<T>) -> Failure {
        Failure::Memory
    }
}

#[derive(Drop)]
pub struct Cursor<'a> {
    rest: &'a [u8],
}

impl<'a> Model for Cursor<'a> {
    ghost use Rattle.std.specs.Prelude.{ℕ, List};

    ghost Value = { List ℕ };

    ghost view = { λ c. c.rest.now };
}

impl<'a> Cursor<'a> {
    pub fn new(rest: &'a [u8]) -> Cursor<'a>
        ensures { result ≡ rest.now }
    {
        Cursor { rest }
    }

    /// How many there are.
    pub fn left(&self) -> u64
        ensures count { result ≡ length self.now }
        ensures few { result < 2 ^ 63 }
    {
        self.rest.len() as u64
    }

    /// Past the next byte.
    pub fn next(&mut self) -> Option<u8>
        ensures { pop self.old ≡ (result, self.new) }
    {
        match self.rest {
            [] => None,
            [byte, rest @ ..] => {
                let byte = *byte;
                self.rest = rest;
                Some(byte)
            }
        }
    }

    /// The bytes themselves.
    pub fn rest(&self) -> &[u8]
        ensures { result.now ≡ self.now }
    {
        self.rest
    }

    /// Past this text, where it comes next.
    pub fn skip(&mut self, text: &[u8]) -> bool
        ensures answer { result ≡ comes text.now self.old }
        ensures rest { self.new ≡ (if result then drop (length text.now) self.old else self.old) }
    {
        match self.rest.strip_prefix(text) {
            Some(rest) => {
                self.rest = rest;
                true
            }
            None => false,
        }
    }
}
