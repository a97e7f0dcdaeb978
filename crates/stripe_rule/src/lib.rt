//! The rule of a memory that threads share by stripes, each under a lock, and how each kind of step keeps it. Nothing here runs: `specs/` has the rule, and
//! the law says that the steps keep it.
#![tactic(auto)]

mod content;
mod law;
mod plan;
mod rule;
mod view;

pub use content::Content;
pub use law::{a_close_tells_the_log, branches_of_a_pass, steps_keep_the_rule};
pub use plan::{Plan, Terms};
pub use rule::{Draw, Drawn, Fork, Give, Halt, Hear, Law, Look, Merge, Named, Take, Tell};
pub use view::{Notes, View};
