ghost use Rattle.std.specs.Prelude.{◌≡◌};
ghost use Rattle.flow_rules.specs.declared.rule.FactsFault.TheVariants.{Memory as OutOfMemory};

use dfi_base::{Memory, Point};
use std::alloc::{AllocError, AllocFailed};
use thiserror::Error;

/// The rules of an accepted module, in the order in which they are told.
#[derive(Clone, Copy, Debug, PartialEq, Eq)]
pub enum Rule {
    Form,
    Points,
    Reach,
    Sets,
    Classes,
    Removed,
}

/// A rule that is open, and the first point at which it is.
#[derive(Clone, Copy)]
pub struct Broken {
    pub rule: Rule,
    pub point: Point,
}

/// Why code has no facts: they are more than the limit, and then `facts` is one more than it; or want of memory.
#[derive(Clone, Copy, Debug, PartialEq, Eq, Error)]
pub enum FactsFault {
    #[error("too many facts: {facts}")]
    Wide { facts: u32 },
    #[error("out of memory")]
    Memory,
}

impl From<Memory> for FactsFault {
    ghost from_gives = { λ _ fault. fault ≡ OutOfMemory };

    fn from(_: Memory) -> FactsFault {
        FactsFault::Memory
    }
}

impl From<AllocError> for FactsFault {
    ghost from_gives = { λ _ fault. fault ≡ OutOfMemory };

    fn from(_: AllocError) -> FactsFault {
        FactsFault::Memory
    }
}

impl<T: Drop> From<AllocFailed<T>> for FactsFault {
    ghost from_gives = { λ _ fault. fault ≡ OutOfMemory };

    fn from(_: AllocFailed<T>) -> FactsFault {
        FactsFault::Memory
    }
}
