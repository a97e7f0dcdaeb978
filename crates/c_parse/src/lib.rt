//! The parser: from tokens to the syntax tree, or the first token that cannot stand where it does. `specs/` has the grammar.
#![tactic(auto)]

mod cursor;
mod decls;
mod exprs;
mod fault;
mod law;
mod nodes;
mod operators;
mod parser;
mod programs;
mod simple;
mod sorts;
mod stmts;
mod subject;
mod types;

pub use fault::ParseFault;
pub use law::{one_answer, one_tree, prefix_continues};
pub use parser::parse;
