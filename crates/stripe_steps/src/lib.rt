//! The steps of a memory that threads share by stripes: a lock is taken or freed, the clock and the halt word are loaded, a ticket is drawn, the halt word is
//! set, seats are split and joined, and all is closed. What lies under a lock is lent to none.
#![tactic(auto)]

mod close;
mod held;
mod kinds;
mod open;
mod steps;

pub use steps::Steps;
