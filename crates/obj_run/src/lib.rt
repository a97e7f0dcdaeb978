//! Runs of three-address code over objects. `specs/` says what values over objects answer to a thread, and what a run of a code is.
#![tactic(auto)]

mod asked;
mod opening;
mod run;
mod sites;
mod threads;
mod values;

pub use run::obj_run;
pub use values::{ObjStack, ObjValues};
