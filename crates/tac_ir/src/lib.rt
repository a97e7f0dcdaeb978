//! Three-address code, modules, and the journal of a run. `specs/` has what a run is.
#![tactic(auto)]

mod code;
mod law;
mod module;
mod run;

pub use code::{BinOp, Code, Fun, Global, Instr, Lined, Place, Shape, Site, UnOp};
pub use law::{
    good_modules_run, leaves_of_numbers, memory_is_local, nodes_of_code, numbers_of_code, one_run,
    regions_of_forks, what_a_run_keeps,
};
pub use module::{
    Classes, Fact, Facts, Key, Module, Points, PointsRow, Reach, ReachRow, Sets, Size,
};
pub use run::{Answer, End, Entry, Journal, Limit, Op, Stop};
