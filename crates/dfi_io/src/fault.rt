ghost use Rattle.std.specs.Prelude.{◌≡◌};
ghost use Rattle.dfi_io.specs.declared.fault.LoadFault.TheVariants.{Memory as OutOfMemory};

use dfi_base::Memory;
use std::alloc::{AllocError, AllocFailed};
use thiserror::Error;

/// Why a file was not loaded.
#[derive(Clone, Copy, Debug, PartialEq, Eq, Error)]
pub enum LoadFault {
    #[error("the file cannot be read")]
    Failed,
    #[error("the file is longer than the limit")]
    Long,
    #[error("out of memory")]
    Memory,
}

impl From<Memory> for LoadFault {
    ghost from_gives = { λ _ fault. fault ≡ OutOfMemory };

    fn from(_: Memory) -> LoadFault {
        LoadFault::Memory
    }
}

impl From<AllocError> for LoadFault {
    ghost from_gives = { λ _ fault. fault ≡ OutOfMemory };

    fn from(_: AllocError) -> LoadFault {
        LoadFault::Memory
    }
}

impl<T: Drop> From<AllocFailed<T>> for LoadFault {
    ghost from_gives = { λ _ fault. fault ≡ OutOfMemory };

    fn from(_: AllocFailed<T>) -> LoadFault {
        LoadFault::Memory
    }
}

/// Text was not written whole.
#[derive(Clone, Copy, Debug, PartialEq, Eq, Error)]
#[error("the text cannot be written")]
pub struct SinkFault;
