//! Emits drafts, and keeps the next numbers.

ghost use Rattle.std.specs.Prelude.{◌≡◌, ◌≤◌, ◌+◌};

use crate::draft::{Draft, Numbers, Taken};
use sqlite_items::Items;
use std::alloc::{AllocError, AllocFailed, Global};
use tac_ir::{Instr, Place};

/// Why a piece was not emitted: it has more instructions than there is room for.
#[derive(Clone, Copy, Debug)]
pub enum Stop {
    Full,
    Memory,
}

impl From<AllocError> for Stop {
    ghost use Rattle.tac_lower.specs.declared.writer.Stop.{Stop};

    ghost from_gives = { λ _ stop. stop ≡ Stop.Memory };

    fn from(_: AllocError) -> Stop {
        Stop::Memory
    }
}

impl<T: Drop> From<AllocFailed<T>> for Stop {
    ghost use Rattle.tac_lower.specs.declared.writer.Stop.{Stop};

    ghost from_gives = { λ _ stop. stop ≡ Stop.Memory };

    fn from(_: AllocFailed<T>) -> Stop {
        Stop::Memory
    }
}

/// What an expression leaves.
#[derive(Drop)]
pub enum Spot {
    /// A variable or a field of one.
    Direct(Place),
    /// The temporary with the value, or with the pointer to the place.
    Left(u32),
}

/// The drafts of a function so far. At most `room` instructions fit in it.
#[derive(Drop)]
pub struct Writer {
    pub drafts: Items<Draft>,
    pub next: Numbers,
    pub room: u32,
    /// Only counts instructions.
    pub dry: bool,
    ghost at: { next.at ≤ room },
    ghost few: { room ≤ 16384 },
    ghost temps: { next.temp ≤ 2147483648 + next.at },
    ghost defs: { next.def + room ≤ 2147500032 + next.at },
    ghost reads: { next.read + room ≤ 2147500032 + next.at },
}

/// Takes only an index.
pub const NO_NUMBER: Taken = Taken {
    temp: false,
    def: false,
    read: false,
};

pub const A_TEMP: Taken = Taken {
    temp: true,
    def: false,
    read: false,
};

pub const A_DEF: Taken = Taken {
    temp: false,
    def: true,
    read: false,
};

pub const A_TEMP_AND_DEF: Taken = Taken {
    temp: true,
    def: true,
    read: false,
};

pub const A_READ: Taken = Taken {
    temp: false,
    def: false,
    read: true,
};

pub const A_TEMP_AND_READ: Taken = Taken {
    temp: true,
    def: false,
    read: true,
};

impl Writer {
    ghost use Rattle.std.specs.Prelude.{true};
    ghost use Rattle.tac_lower.specs.declared.draft.Ends.{Ends};
    ghost use Rattle.tac_lower.specs.Parts.{one};
    ghost use Rattle.tac_lower.specs.Instrs.{draft, no_number, a_temp};
    ghost use Rattle.tac_lower.specs.tools.Emits.{Emits};

    /// A writer that counts what this one would emit.
    pub(crate) fn dry_run(&self, alloc: Global) -> Writer
        ensures next { result.next ≡ self.now.next }
        ensures room { result.room ≡ self.now.room }
        ensures dry { result.dry ≡ true }
    {
        Writer {
            drafts: Items::new(alloc),
            next: self.next,
            room: self.room,
            dry: true,
        }
    }

    /// One instruction, which takes these numbers.
    pub(crate) fn put(&mut self, draft: Draft, taken: Taken) -> Result<u32, Stop>
        ensures { (ends : Ends) → Emits (one taken (λ n. draft)) ends self.old self.new result }
    {
        if self.next.at == self.room {
            return Err(Stop::Full);
        }
        let temp = self.next.temp;
        if !self.dry {
            self.drafts.push(draft)?;
        }
        self.next = self.next.behind(taken);
        Ok(temp)
    }

    /// One instruction, which writes the next temporary.
    pub(crate) fn fresh(&mut self, line: u32, instr: Instr) -> Result<u32, Stop>
        ensures { (ends : Ends) → Emits (one a_temp (λ n. draft line instr)) ends self.old self.new result }
    {
        let draft = Draft {
            line,
            instr,
            object: None,
        };
        self.put(draft, A_TEMP)
    }

    /// One instruction without numbers of its own.
    pub(crate) fn quiet(&mut self, line: u32, instr: Instr) -> Result<u32, Stop>
        ensures { (ends : Ends) → Emits (one no_number (λ n. draft line instr)) ends self.old self.new result }
    {
        let draft = Draft {
            line,
            instr,
            object: None,
        };
        self.put(draft, NO_NUMBER)
    }
}
