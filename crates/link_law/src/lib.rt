//! Return links in the runs of a module over words: where the checks of their reads stand, each names the call that made its frame, and
//! the set of the read has it.
#![tactic(auto)]

mod law;

pub use law::{linked_law, links_name_their_calls, returns_go_home};
