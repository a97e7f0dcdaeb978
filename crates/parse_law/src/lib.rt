//! Parsers that are a grammar both ways, with the exact first fault: `specs/` says what that is, `proofs/` has the lemmas for the parser of a
//! language, and a small language carried through.
#![tactic(auto)]

mod law;

pub use law::{one_answer, one_tree, prefix_continues};
