//! The trees of threads of a run over objects are its threads, each told by its own entries.
#![tactic(auto)]

mod law;

use dfi_base as _;
pub use law::trees_are_threads;
use obj_law as _;
use sqlite_items as _;
