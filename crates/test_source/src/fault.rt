//! Why a source is not read to its end.

use c_lex::LexFault;
use c_parse::ParseFault;
use dfi_base::Memory;
use std::alloc::{AllocError, Global};

/// A fault of a source, or want of memory.
#[derive(Drop)]
pub enum Fault {
    /// More bytes than the lexer takes.
    Long,
    Lex(LexFault),
    Parse(ParseFault),
    Memory,
}

impl From<LexFault> for Fault {
    fn from(fault: LexFault) -> Fault {
        Fault::Lex(fault)
    }
}

impl From<ParseFault> for Fault {
    fn from(fault: ParseFault) -> Fault {
        Fault::Parse(fault)
    }
}

impl From<Memory> for Fault {
    fn from(_: Memory) -> Fault {
        Fault::Memory
    }
}

impl From<AllocError> for Fault {
    fn from(_: AllocError) -> Fault {
        Fault::Memory
    }
}

impl Fault {
    /// The fault in words.
    pub fn into_words(self, alloc: Global) -> Result<String, Memory> {
        match self {
            Fault::Long => Ok(String::from_str(alloc, "too long")?),
            Fault::Lex(LexFault::Memory) => Err(Memory),
            Fault::Lex(fault) => Ok(format!(in alloc; "{fault}")?),
            Fault::Parse(fault) => parse_words(alloc, fault),
            Fault::Memory => Err(Memory),
        }
    }
}

fn parse_words(alloc: Global, fault: ParseFault) -> Result<String, Memory> {
    match fault {
        ParseFault::Unexpected { token, line } => {
            Ok(format!(in alloc; "token {token} line {}", line.0)?)
        }
        ParseFault::Deep { line } => Ok(format!(in alloc; "deep line {}", line.0)?),
        ParseFault::Memory => Err(Memory),
    }
}
