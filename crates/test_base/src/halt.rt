use dfi_base::Memory;
use std::alloc::AllocError;
use std::io;

/// Why a table was not run to its end.
#[derive(Clone, Copy)]
pub enum Halt {
    /// The standard input or output failed.
    Device,
    Memory,
    /// A row is larger than its table may have them.
    Long,
}

impl From<Memory> for Halt {
    fn from(_: Memory) -> Halt {
        Halt::Memory
    }
}

impl From<AllocError> for Halt {
    fn from(_: AllocError) -> Halt {
        Halt::Memory
    }
}

impl From<io::Error> for Halt {
    fn from(_: io::Error) -> Halt {
        Halt::Device
    }
}
