//! Laws of the histories of a run over words of 32 bits: each has its chain of trees, those that run in its last tree are the runnable
//! threads, and the frames of its threads share no word.
#![tactic(auto)]

mod law;

pub use law::{frames_are_apart, runnable_is_running, runs_have_chains};
