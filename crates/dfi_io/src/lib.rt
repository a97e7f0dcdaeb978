//! The outside as the compiler sees it: a library of files and a sink for text.
#![tactic(auto)]

mod console;
mod fault;
mod folder;
mod law;
mod library;
mod pad;
mod shelf;
mod sink;

pub use console::Console;
pub use fault::{LoadFault, SinkFault};
pub use folder::Folder;
pub use law::faults_counted;
pub use library::Library;
pub use pad::Pad;
pub use shelf::Shelf;
pub use sink::Sink;
