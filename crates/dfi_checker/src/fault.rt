use flow_rules::Rule;
use thiserror::Error;

/// Why a module is not accepted.
#[derive(Debug, Drop, Error)]
pub enum AcceptFault {
    /// The first rule that is broken, and the first line of the module's text at which it is.
    #[error("a rule is broken at line {line}")]
    Refused { rule: Rule, line: u32 },
    #[error("out of memory")]
    Memory,
}
