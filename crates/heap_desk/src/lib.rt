//! The desk: the live blocks of the heap, and how far the input was read.
#![tactic(auto)]

mod desk;
mod fault;
mod law;
mod places;
mod room;
mod scan;
mod span;

pub use desk::Desk;
pub use fault::{NotLive, TakeFault};
pub use law::{blocks_of_a_run, desk_follows_run, same_blocks_serve_alike};
