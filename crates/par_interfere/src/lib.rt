//! Which points of code may run beside which: those in the bodies of two branches of one fork.
#![tactic(auto)]

mod branches;
mod calls;
mod interfere;
mod points;
mod rows;

pub use interfere::mhp;
