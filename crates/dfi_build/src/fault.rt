use c_lex::LexFault;
use c_parse::ParseFault;
use c_typed::TypeFault;
use tac_lower::LowerFault;
use thiserror::Error;

/// Why a source has no module: the first fault that a part of the compiler found, or want of memory.
#[derive(Debug, Drop, Error)]
pub enum BuildFault {
    #[error("{0}")]
    Lex(LexFault),
    #[error("{0}")]
    Parse(ParseFault),
    #[error("{0}")]
    Types(TypeFault),
    #[error("{0}")]
    Lower(LowerFault),
    #[error("out of memory")]
    Memory,
}
