//! A memory that threads share: its words are dealt to stripes, each under a lock, and each entry has a ticket from one clock.
#![tactic(auto)]

mod access;
mod calls;
mod close;
mod fault;
mod memory;
mod open;
mod pass;
mod retry;
mod tree;

pub use close::{Closed, Ran};
pub use fault::{AccessFault, Busy, TickFault, TryFault};
pub use memory::SharedMem;
pub use pass::Pass;
