ghost use Rattle.std.specs.Prelude.{◌≡◌};
ghost use Rattle.number_lists.specs.declared.fault.ListFault.TheVariants.{Memory as OutOfMemory};

use std::alloc::AllocFailed;
use thiserror::Error;

/// Why bytes are no list of numbers, or want of memory.
#[derive(Debug, Drop, Error)]
pub enum ListFault {
    /// The offset, from 0, of the first byte with which no list goes on; the number of bytes where they end within a
    /// number that has no digit.
    #[error("no list of numbers at byte {at}")]
    Refused { at: u64 },
    #[error("out of memory")]
    Memory,
}

impl<T: Drop> From<AllocFailed<T>> for ListFault {
    ghost from_gives = { λ _ fault. fault ≡ OutOfMemory };

    fn from(_: AllocFailed<T>) -> ListFault {
        ListFault::Memory
    }
}
