//! The top call: from the words of a command line and the files that they name to one text, a
//! status and a journal.
#![tactic(auto)]

mod call;
mod law;
mod refusals;
mod reply;
mod runs;
mod saying;
mod stages;

pub use call::{Ended, front};
pub use law::told_calls;
