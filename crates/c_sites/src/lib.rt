//! The heap sites of a typed program, numbered in the order of its code.
#![tactic(auto)]

mod copies;
mod exprs;
mod functions;
mod stmts;

pub use functions::number;
