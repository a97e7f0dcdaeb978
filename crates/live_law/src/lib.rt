//! Live points: threads that run at once stand at points that two branches of one fork may run at once, over any values and in each run
//! over words.
#![tactic(auto)]

mod law;

pub use law::{
    bodies_have_parallel_points, live_points_are_parallel, runnable_points_are_parallel,
};
