//! The lines of broken rules of types.
#![tactic(auto)]

mod law;

pub use law::one_line;
