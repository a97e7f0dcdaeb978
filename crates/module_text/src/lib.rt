//! The text of a module, in both directions.
#![tactic(auto)]

mod fault;
mod law;
mod modules;
mod reading;
mod rows;
mod tables;
mod words;
mod writing;
mod written;

pub use fault::TextFault;
pub use law::written_is_read;
pub use line_writer::WriteFault;
pub use reading::read_module;
pub use writing::write_module;
