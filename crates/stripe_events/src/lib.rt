//! What lies under a lock of a shared memory answers an event, in three calls: `prepare` has the answer, and takes the room of a block; `undo` gives that
//! room back where the event does not come to pass; `finish` does the rest where it does.
#![tactic(auto)]

mod content;
mod desk;
mod tables;
mod words;

pub use content::{finish, prepare, undo};
pub use tables::Tables;
