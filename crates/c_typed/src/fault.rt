ghost use Rattle.std.specs.Prelude.{◌≡◌};
ghost use Rattle.c_typed.specs.declared.fault.TypeFault.TheVariants.{Memory};

use dfi_base::Line;
use std::alloc::{AllocError, AllocFailed};
use thiserror::Error;

/// What grew past its limit.
#[derive(Clone, Copy, Debug)]
pub enum BigWhat {
    Functions,
    /// The words of one type.
    Shape,
    Globals,
    Frame,
}

/// The first broken rule of a program, with the line of its token.
#[derive(Debug, Drop, Error)]
pub enum TypeFault {
    #[error("line {}: unknown name", line.0)]
    Unknown { line: Line },
    #[error("line {}: name twice", line.0)]
    Twice { line: Line },
    #[error("line {}: types differ", line.0)]
    Mismatch { line: Line },
    #[error("line {}: no lvalue", line.0)]
    NotLvalue { line: Line },
    #[error("line {}: leaves its branch", line.0)]
    Escape { line: Line },
    #[error("line {}: branches", line.0)]
    Branches { line: Line },
    #[error("line {}: too big", line.0)]
    Big { what: BigWhat, line: Line },
    #[error("line {}: no main", line.0)]
    NoMain { line: Line },
    #[error("out of memory")]
    Memory,
}

impl From<AllocError> for TypeFault {
    ghost from_gives = { λ _ fault. fault ≡ Memory };

    fn from(_: AllocError) -> TypeFault {
        TypeFault::Memory
    }
}

impl<T: Drop> From<AllocFailed<T>> for TypeFault {
    ghost from_gives = { λ _ fault. fault ≡ Memory };

    fn from(_: AllocFailed<T>) -> TypeFault {
        TypeFault::Memory
    }
}
