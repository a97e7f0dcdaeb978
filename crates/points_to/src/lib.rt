//! What temporaries and nodes may point to: the rules of each instruction as rules over rows of bits. `specs/` says which row is whose.
#![tactic(auto)]

mod answer;
mod instr_rules;
mod law;
mod masks;
mod row_map;
mod solve;
mod system;
mod table;

pub use law::solutions_are_points;
pub use solve::solve_points;
