use crate::event::Stamp;
use sqlite_items::Items;
use thiserror::Error;

/// A run along names.
#[derive(Debug, Drop)]
pub struct SrcRun {
    /// The events, the oldest first, without those that every run begins with. A division by 0 is one, an invalid event is not.
    pub events: Items<Stamp>,
    /// The numbers that were put out, the oldest first.
    pub outputs: Items<i32>,
    pub end: SrcEnd,
}

/// How a run ended.
#[derive(Clone, Copy, Debug, PartialEq, Eq)]
pub enum SrcEnd {
    /// Main returned this number.
    Done(i32),
    /// A thread divided by 0.
    Trap,
    /// An event was invalid, or main returned what is no number.
    Invalid,
    /// The names were used up.
    Cut,
}

/// Why there is no run along some names.
#[derive(Debug, Drop, Error)]
pub enum SrcFault {
    /// The name at this place, counted from 1, is that of no runnable thread, or follows the end of the run.
    #[error("name {k} is not runnable")]
    NotRunnable { k: u64 },
    /// Memory was wanted, and there was none.
    #[error("out of memory")]
    Memory,
}
