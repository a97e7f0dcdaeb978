ghost use Rattle.std.specs.Prelude.{◌≡◌};
ghost use Rattle.heap_desk.specs.declared.fault.TakeFault.TheVariants.{Memory};

use std::alloc::AllocFailed;
use thiserror::Error;

/// Why no block was taken.
#[derive(Clone, Copy, Debug, PartialEq, Eq, Error)]
pub enum TakeFault {
    /// The count is negative, or no gap of the heap is as large as the block.
    #[error("no room in the heap")]
    NoRoom,
    /// Memory was wanted, and there was none.
    #[error("out of memory")]
    Memory,
}

impl<T: Drop> From<AllocFailed<T>> for TakeFault {
    ghost from_gives = { λ _ fault. fault ≡ Memory };

    fn from(_: AllocFailed<T>) -> TakeFault {
        TakeFault::Memory
    }
}

/// No live block begins at the word that was given back.
#[derive(Clone, Copy, Debug, PartialEq, Eq, Error)]
#[error("no block begins here")]
pub struct NotLive;
