//! Three-address code of typed programs. `specs/` has what it is.
#![tactic(auto)]

mod branches;
mod draft;
mod fault;
mod finish;
mod flow;
mod functions;
mod law;
mod limits;
mod logic;
mod lowering;
mod needs;
mod operators;
mod places;
mod plan;
mod progress;
mod shapes;
mod stmts;
mod structs;
mod types;
mod values;
mod writer;
mod writes;

pub use fault::{LowerFault, LowerWhat};
pub use law::{functions_stand_in_code, pieces_are_counted, pieces_are_typed, types_have_shapes};
pub use lowering::lower;
