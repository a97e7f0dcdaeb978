use dfi_base::Line;
use thiserror::Error;

/// Why a source is no program.
#[derive(Debug, Drop, Error)]
pub enum ParseFault {
    /// The first token, from 0, with which no program goes on. Where the source ends too soon, the number of tokens and the last line.
    #[error("unexpected token")]
    Unexpected { token: u32, line: Line },
    /// The first token at which nesting would come to 201, on this line.
    #[error("nested too deep")]
    Deep { line: Line },
    #[error("out of memory")]
    Memory,
}
