//! The run of a typed program along names.
#![tactic(auto)]

mod calls;
mod exprs;
mod heard;
mod level;
mod operators;
mod stmts;
mod writes;

use src_law as _;
