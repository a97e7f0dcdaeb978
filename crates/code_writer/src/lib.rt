//! The code of a module is written as text.
#![tactic(auto)]

mod functions;
mod instrs;
mod operands;
mod sections;
mod words;

pub use functions::code;
