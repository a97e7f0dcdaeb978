//! Laws of runs of code over objects.
#![tactic(auto)]

mod law;

use dfi_base as _;
pub use law::{
    events_are_seen, frames_are_calls, histories_are_one, histories_are_valid, makers_are_fresh,
    runs_are_one,
};
use obj_run as _;
use sqlite_items as _;
