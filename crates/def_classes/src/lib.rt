//! The sets of all reads, and the classes of the definitions in them.
#![tactic(auto)]

mod counts;
mod found;
mod law;
mod numbers;

pub use found::sets;
pub use law::classes_tell_sets;
pub use numbers::classes;
