ghost use Rattle.std.specs.Prelude.{◌≡◌};
ghost use Rattle.flat_core.specs.declared.fault.StepFault.TheVariants.{Memory};

use dfi_base::Memory;
use std::alloc::AllocError;
use thiserror::Error;

/// Why there is no run along given names.
#[derive(Clone, Copy, Debug, PartialEq, Eq, Error)]
pub enum RunFault {
    /// Name `k`, from 1, is not runnable, or it follows a stop.
    #[error("name {k} is refused")]
    Names { k: u64 },
    /// Memory was wanted, and there was none.
    #[error("out of memory")]
    Memory,
}

impl From<Memory> for RunFault {
    ghost use Rattle.flat_core.specs.declared.fault.RunFault.TheVariants.{Memory};

    ghost from_gives = { λ _ fault. fault ≡ Memory };

    fn from(_: Memory) -> RunFault {
        RunFault::Memory
    }
}

/// Why there was no step.
#[derive(Clone, Copy, Debug, PartialEq, Eq, Error)]
pub enum StepFault {
    /// The run has ended.
    #[error("the run has ended")]
    Over,
    /// No runnable thread has this name.
    #[error("no runnable thread has this name")]
    NotRunnable,
    /// Memory was wanted, and there was none.
    #[error("out of memory")]
    Memory,
}

impl From<Memory> for StepFault {
    ghost from_gives = { λ _ fault. fault ≡ Memory };

    fn from(_: Memory) -> StepFault {
        StepFault::Memory
    }
}

impl From<AllocError> for StepFault {
    ghost from_gives = { λ _ fault. fault ≡ Memory };

    fn from(_: AllocError) -> StepFault {
        StepFault::Memory
    }
}
