ghost use Rattle.std.specs.Prelude.{◌≡◌};
ghost use Rattle.dfi_base.specs.declared.failed.Failed.TheVariants.{Memory as OutOfMemory, Fault as AFault};

use crate::memory::Memory;
use std::alloc::{AllocError, AllocFailed};

/// A fault, or want of memory.
#[derive(Clone, Copy, Debug, PartialEq, Eq)]
pub enum Failed<F> {
    Memory,
    Fault(F),
}

impl<F> From<Memory> for Failed<F> {
    ghost from_gives = { λ _ failed. failed ≡ OutOfMemory };

    fn from(_: Memory) -> Failed<F> {
        Failed::Memory
    }
}

impl<F> From<AllocError> for Failed<F> {
    ghost from_gives = { λ _ failed. failed ≡ OutOfMemory };

    fn from(_: AllocError) -> Failed<F> {
        Failed::Memory
    }
}

impl<F, T: Drop> From<AllocFailed<T>> for Failed<F> {
    ghost from_gives = { λ _ failed. failed ≡ OutOfMemory };

    fn from(_: AllocFailed<T>) -> Failed<F> {
        Failed::Memory
    }
}

impl<F> Failed<F> {
    /// The same of a wider fault.
    pub fn map<G, C: FnOnce(F) -> G>(self, widen: C) -> Failed<G>
        requires { (f : F) → C.pre widen f }
        ensures memory { self ≡ OutOfMemory → result ≡ OutOfMemory }
        ensures fault { (f : F) → self ≡ AFault f → (g : G) × (result ≡ AFault g) × C.post widen f g }
    {
        match self {
            Failed::Memory => Failed::Memory,
            Failed::Fault(fault) => Failed::Fault(widen(fault)),
        }
    }
}
