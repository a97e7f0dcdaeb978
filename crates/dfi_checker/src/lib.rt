//! The rules that an accepted module keeps, and where the first broken one is broken. `specs/` has the definitions.
#![tactic(auto)]

mod fault;
mod law;

pub use fault::AcceptFault;
pub use law::{accepted_breaks_none, lines_ascend, one_fault};
