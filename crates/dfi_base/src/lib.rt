//! The ground floor: want of memory, numbers with names of their own, limits, text, and rows of bits; and the laws of threads of any run.
#![tactic(auto)]

mod bit_words;
mod bits;
mod failed;
mod law;
pub mod limits;
mod memory;
pub mod memory_map;
mod numbers;
mod text;

pub use bits::Bits;
pub use failed::Failed;
pub use law::{
    branches_are_apart, depth_is_by_name, first_thread_lives, join_is_grown, lives_are_one,
    runs_are_one, threads_are_alike, threads_are_kin, words_are_integers, words_make_words,
};
pub use memory::Memory;
pub use numbers::{DefNo, Line, Name, Point, ReadNo};
pub use text::Text;
