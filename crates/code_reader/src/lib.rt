//! The code of a module is read from its text.
#![tactic(auto)]

mod functions;
mod instrs;
mod operands;
mod sections;
mod words;

pub use operands::small;
pub use sections::{code_sections, count, section};
