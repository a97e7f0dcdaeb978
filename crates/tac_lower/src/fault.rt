ghost use Rattle.std.specs.Prelude.{◌≡◌};

use dfi_base::{Line, Memory};
use std::alloc::{AllocError, AllocFailed};
use thiserror::Error;

/// What there is too much of.
#[derive(Clone, Copy, Debug)]
pub enum LowerWhat {
    Points,
    Defs,
    Nodes,
}

/// Why a program has no code.
#[derive(Debug, Drop, Error)]
pub enum LowerFault {
    /// There are too many from the function, global or heap site of this line on.
    #[error("line {}: too big", line.0)]
    Big { what: LowerWhat, line: Line },
    #[error("out of memory")]
    Memory,
}

impl From<Memory> for LowerFault {
    ghost use Rattle.tac_lower.specs.declared.fault.LowerFault.{LowerFault};

    ghost from_gives = { λ _ fault. fault ≡ LowerFault.Memory };

    fn from(_: Memory) -> LowerFault {
        LowerFault::Memory
    }
}

impl From<AllocError> for LowerFault {
    ghost use Rattle.tac_lower.specs.declared.fault.LowerFault.{LowerFault};

    ghost from_gives = { λ _ fault. fault ≡ LowerFault.Memory };

    fn from(_: AllocError) -> LowerFault {
        LowerFault::Memory
    }
}

impl<T: Drop> From<AllocFailed<T>> for LowerFault {
    ghost use Rattle.tac_lower.specs.declared.fault.LowerFault.{LowerFault};

    ghost from_gives = { λ _ fault. fault ≡ LowerFault.Memory };

    fn from(_: AllocFailed<T>) -> LowerFault {
        LowerFault::Memory
    }
}
