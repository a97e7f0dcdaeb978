//! Lists of decimal numbers in a file: the input of a program, and the names that make a run's events.
#![tactic(auto)]

mod fault;
mod law;
mod lists;
mod scan;

pub use fault::ListFault;
pub use law::one_answer;
pub use lists::{read_input, read_names};
