//! Laws of trees of threads, over any values: each history has a chain of trees, an answer moves a life in one of six ways, and what a
//! life or a tree keeps holds along the chain.
#![tactic(auto)]

mod law;

pub use law::{answers_move, histories_have_chains, lives_keep_their_regions};
