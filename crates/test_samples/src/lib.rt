//! Small modules that can run, as rows of instructions in tables: what the core and its threads are tested on.
#![tactic(auto)]

pub mod branches;
mod build;
pub mod calls;
pub mod nests;
mod row;
pub mod stops;
pub mod stores;

pub use build::{Function, Sample, module_of};
pub use row::{Row, Spot};
