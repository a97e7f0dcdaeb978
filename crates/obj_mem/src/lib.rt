//! Objects of the source's meaning: the values that point into them, the events of threads, and which events are valid.
#![tactic(auto)]

mod event;
mod law;
mod living;
mod number;
mod run;
mod valid;
mod value;
mod word;

use dfi_base::Name;
pub use event::{Event, SrcAnswer, Stamp};
pub use law::{freed_is_over, makers_are_unique, pointers_stay_inside, reads_find_writes};
pub use run::{SrcEnd, SrcFault, SrcRun};
pub use valid::valid_answer;
pub use value::{Obj, Value};

/// Whose a frame or a block is: the thread that made it, and one more than the calls and blocks of its name before.
#[derive(Clone, Copy, Debug, PartialEq, Eq)]
pub struct Maker {
    pub thread: Name,
    pub count: u32,
}
