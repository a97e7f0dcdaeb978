//! From the bytes of a source to its module, or to its first fault.
#![tactic(auto)]

mod build_source;
mod fault;
mod law;

pub use build_source::build;
pub use fault::BuildFault;
pub use law::one_build;
