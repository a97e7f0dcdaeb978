//! Texts of lines are written.
#![tactic(auto)]

mod fault;
mod lists;
mod rows;

pub use fault::{WriteFault, within_limit};
pub use lists::{numbers, numbers_to_end};
pub use rows::{Line, count, lines, section};
