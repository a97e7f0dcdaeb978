//! One thread of three-address code over any values, and all threads of a run. `specs/` says what a domain of values
//! answers, and what each event makes of a thread.
#![tactic(auto)]

mod answer;
mod calls;
mod deep;
mod doing;
mod domain;
mod fetch;
mod flat;
mod forks;
mod guest;
mod law;
mod resume;
mod run;
mod temps;
mod tree;
mod want;

pub use deep::is_deep;
pub use domain::Domain;
pub use flat::{FlatStack, FlatWords};
pub use guest::Guest;
pub use law::silence_is_short;
pub use tree::Tree;
pub use want::{Reply, ReplyOf, Want};
