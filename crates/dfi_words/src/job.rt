ghost use Rattle.std.specs.Prelude.{◌≡◌};
ghost use Rattle.clap.specs.Words.{kind_of};
ghost use Rattle.dfi_words.specs.declared.job.WordFault.TheVariants.{Memory};
ghost use Rattle.dfi_words.specs.tools.Found.{fault_of_kind};

use clap::error::ErrorKind;
use dfi_base::Text;
use std::alloc::AllocError;
use thiserror::Error;

/// What the words of a command line ask for. A file is named by its bytes.
#[derive(Debug, Drop)]
pub enum Job {
    /// Write the module of the source in this file.
    Build {
        src: Text,
    },
    /// Say whether the module in this file is accepted.
    Check {
        file: Text,
    },
    /// Write the definitions, classes, reads and sets of the source in this file.
    Sets {
        src: Text,
    },
    /// Run a source or a module on an input, along a list of names where one is given.
    Replay {
        file: Text,
        input: Text,
        names: Option<Text>,
        budget: u64,
    },
    /// Run a source or a module on an input, on threads.
    Run {
        file: Text,
        input: Text,
        workers: u32,
        stripes: u32,
        budget: u64,
    },
    /// Write the generated source of this number.
    Gen {
        n: u32,
    },
    /// Generate, build and run the source of this number on threads.
    Trial {
        n: u32,
        workers: u32,
        stripes: u32,
        budget: u64,
    },
}

/// Why no job was read.
#[derive(Clone, Copy, Debug, PartialEq, Eq, Error)]
pub enum WordFault {
    /// The words ask for nothing that there is.
    #[error("words refused")]
    Refused,
    #[error("out of memory")]
    Memory,
}

impl From<clap::Error> for WordFault {
    ghost from_gives = { λ error fault. fault ≡ fault_of_kind (kind_of error) };

    fn from(error: clap::Error) -> WordFault {
        match error.kind() {
            ErrorKind::OutOfMemory => WordFault::Memory,
            _ => WordFault::Refused,
        }
    }
}

impl From<AllocError> for WordFault {
    ghost from_gives = { λ _ fault. fault ≡ Memory };

    fn from(_: AllocError) -> WordFault {
        WordFault::Memory
    }
}

impl From<dfi_base::Memory> for WordFault {
    ghost from_gives = { λ _ fault. fault ≡ Memory };

    fn from(_: dfi_base::Memory) -> WordFault {
        WordFault::Memory
    }
}
