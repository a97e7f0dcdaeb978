//! Logs of what threads did to a shared memory: entries with the tickets that they drew, the oldest first.
#![tactic(auto)]

mod log;
mod stamped;

pub use log::Log;
pub use stamped::Stamped;
