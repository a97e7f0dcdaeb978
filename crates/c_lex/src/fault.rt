ghost use Rattle.std.specs.Prelude.{◌≡◌};
ghost use Rattle.c_lex.specs.declared.fault.LexFault.TheVariants.{Memory as OutOfMemory};

use dfi_base::Memory;
use std::alloc::{AllocError, AllocFailed};
use thiserror::Error;

/// The first fault in the text of a source, and the place of its first byte, counted from 0; or want of memory.
#[derive(Debug, Drop, Error)]
pub enum LexFault {
    /// A byte that begins no token, no white space and no comment.
    #[error("a byte of no token at {at}")]
    BadByte { at: u32 },
    /// A run of letters and digits that begins with a digit and is no constant.
    #[error("a bad number at {at}")]
    BadNumber { at: u32 },
    /// A constant above 2147483647.
    #[error("a number that is too big at {at}")]
    BigNumber { at: u32 },
    /// A `/*` with no `*/` behind it.
    #[error("an open comment at {at}")]
    OpenComment { at: u32 },
    /// The token behind as many as there may be.
    #[error("a token too many at {at}")]
    TooMany { at: u32 },
    /// Memory was wanted, and there was none.
    #[error("out of memory")]
    Memory,
}

impl From<Memory> for LexFault {
    ghost from_gives = { λ _ fault. fault ≡ OutOfMemory };

    fn from(_: Memory) -> LexFault {
        LexFault::Memory
    }
}

impl From<AllocError> for LexFault {
    ghost from_gives = { λ _ fault. fault ≡ OutOfMemory };

    fn from(_: AllocError) -> LexFault {
        LexFault::Memory
    }
}

impl<T: Drop> From<AllocFailed<T>> for LexFault {
    ghost from_gives = { λ _ fault. fault ≡ OutOfMemory };

    fn from(_: AllocFailed<T>) -> LexFault {
        LexFault::Memory
    }
}
