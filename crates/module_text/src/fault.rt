use thiserror::Error;

/// Why bytes are not read as a module.
#[derive(Debug, Drop, Error)]
pub enum TextFault {
    #[error("the text of the module is longer than the limit")]
    Long,
    /// The text of an earlier version.
    #[error("the module is of version {found}")]
    Version { found: u32 },
    /// The first byte with which no text of a module goes on, or the length where it ends too soon.
    #[error("no module goes on with the byte at {at}")]
    At { at: u64 },
    #[error("out of memory")]
    Memory,
}
