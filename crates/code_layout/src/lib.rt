//! Where things stand in code and in memory: the bounds of the memory, the words of shapes, and a layout, which has all offsets of a
//! code, computed once. `specs/` says which numbers a layout of a code has.
#![tactic(auto)]

mod frames;
mod globals;
mod layout;
mod memory;
mod offsets;
mod places;
mod shapes;
mod temps;

pub use globals::global_starts;
pub use layout::Layout;
pub use memory::{globals_from, heap_from, memory_words, stack_from};
pub use shapes::shape_sizes;
