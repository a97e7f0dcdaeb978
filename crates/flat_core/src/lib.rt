//! The core: it runs a module, every step the one that the definition of a core run allows. `specs/` says what a core is beside the
//! history of its run.
#![tactic(auto)]

mod ask;
mod drive;
mod fault;
mod law;
mod machine;
mod stacks;
mod steps;
mod store;
mod turn;

pub use ask::{op_of, reply_to};
pub use drive::{Turns, run};
pub use fault::{RunFault, StepFault};
pub use law::one_run_along;
pub use machine::root_stack;
pub use stacks::shares;
pub use steps::Core;
