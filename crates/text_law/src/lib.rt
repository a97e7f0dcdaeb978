//! The text of a module, and its laws.
#![tactic(auto)]

mod law;
mod opcode;

pub use law::{texts_are_one, texts_are_read_back, texts_are_told};
pub use opcode::{Opcode, ShapeWord};
