//! The least table of rows of bits above a given one in which each of some rules is closed.
#![tactic(auto)]

mod fitting;
mod gather;
mod index;
mod law;
mod open;
mod rules;
mod solution;
mod solver;

pub use fitting::is_fitting;
pub use law::solutions_are_least;
pub use open::first_open;
pub use rules::{Rule, System};
pub use solution::solve;
